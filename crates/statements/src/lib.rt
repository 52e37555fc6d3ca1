// What a customer has to believe, together: the three demands, the cases that paper 01 stars, and that every contract but that of
// `folder::read` determines its answer. All are mathematics and stand in proofs/. A crate has at least one function, and this one is not used.
#![tactic(auto)]

ghost use Rattle.std.specs.Prelude.{◌≡◌};

// The number itself.
pub fn number_itself(n: u32) -> u32
    ensures { result ≡ n }
{
    n
}
