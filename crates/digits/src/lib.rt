// Numbers in decimal digits, read at any place of any slice. Assumes nothing of the caller: any bytes, any width.
#![tactic(auto)]

ghost use Rattle.std.specs.Prelude.{◌≡◌, ◌-◌, ◌≤◌, min};
ghost use Rattle.slices.specs.Part.{part};
ghost use Rattle.digits.specs.Digits.{is_digit, all_digits, value};

use slices::byte_after;

// Whether a byte is a digit.
pub fn is_digit(b: u8) -> bool
    ensures { result ≡ is_digit b }
{
    b.is_ascii_digit()
}

// Whether the n bytes from `at` on are digits.
pub fn all_digits(s: &[u8], at: usize, n: usize) -> bool
    ensures { result ≡ all_digits (part n at s.now) }
{
    (0..n).all(|k| is_digit(byte_after(s, at, k)))
}

// What a byte counts as a digit; one below the digits counts 0.
fn digit(b: u8) -> u32
    ensures { (result ≡ b - 48) × (result ≤ 207) }
{
    b.saturating_sub(b'0') as u32
}

// The decimal value of the digits from `at` on, of which no more than six are read.
pub fn number(s: &[u8], at: usize, width: usize) -> u32
    ensures { result ≡ value (part (min width 6) at s.now) }
{
    let mut n = 0;
    for k in 0..width.min(6) {
        n = n * 10 + digit(byte_after(s, at, k));
    }
    n
}
