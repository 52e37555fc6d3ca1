// The sets of bytes that the small letters of a pattern stand for. Assumes nothing.
ghost use Rattle.std.specs.Prelude.{◌≡◌};
ghost use Rattle.columns.specs.ByteSets.{fits};

// Whether the byte b fits the letter c: is in its set, or is c itself where c stands for no set.
#[tactic(auto, unfolding(crate::specs::ByteSets::fits))]
pub(crate) fn in_set(c: u8, b: u8) -> bool
    ensures { result ≡ fits c b }
{
    match c {
        b'a' => matches!(b, b'A'..=b'Z'),
        b'd' => matches!(b, b'0'..=b'9'),
        b'e' => matches!(b, b'1'..=b'9'),
        b'n' => matches!(b, b'A'..=b'Z' | b'0'..=b'9'),
        b'o' => matches!(b, b'A'..=b'Z' | b'0'..=b'9' | b' '),
        b't' => matches!(b, b'A'..=b'Z' | b'0'..=b'9' | b'-'),
        b's' => matches!(b, b'A'..=b'Z' | b'0'..=b'9' | b'-' | b' '),
        b'k' => matches!(b, b'2'..=b'9' | b'A'..=b'Z'),
        b'p' => matches!(b, b' '..=b'~'),
        _ => b == c,
    }
}
