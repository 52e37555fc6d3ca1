// The theory of selection is mathematics and stands in specs/ and proofs/. A crate has at least one function, and this one is not used.
#![tactic(auto)]

ghost use Rattle.std.specs.Prelude.{◌≡◌};

// The number itself.
pub fn same_number(n: u32) -> u32
    ensures { result ≡ n }
{
    n
}
