// One line of a log: which line stands in front of what is left of it, and the first byte from which none can be completed there.
// Assumes of its callers, all in this crate, that no more than 200 corrections have begun.
ghost use Rattle.std.specs.Prelude.{◌≡◌, map, ◌+◌, ◌%◌, ◌<◌, ◌≤◌, length, get_or};
ghost use Rattle.std.specs.List.{list_all};
ghost use Rattle.corrections.specs.Lines.{exactly, printable, allows, heading, change, reach, whole, line_of};

use crate::CHANGE_WIDTH;
use slices::byte_at;

#[derive(Clone, Copy, Debug, PartialEq, Eq)]
pub enum Line {
    Heading,
    TakenOut,
    PutIn,
}

// The last digit of a number.
fn digit(n: usize) -> u8
    ensures { result ≡ n % 10 + 48 }
{
    (n % 10) as u8 + 48
}

// The heading of a correction as text, the line feed its last byte, in the bytes that are lent.
fn heading_text(n: usize, space: &mut [u8; 6]) -> &[u8]
    requires { n < 1000 }
    ensures { map exactly result.now ≡ heading n }
{
    if n < 10 {
        *space = [b'C', b'\t', digit(n), b'\n', 0, 0];
        return &space[..4];
    }
    if n < 100 {
        *space = [b'C', b'\t', digit(n / 10), digit(n), b'\n', 0];
        return &space[..5];
    }
    *space = [b'C', b'\t', digit(n / 100), digit(n / 10), digit(n), b'\n'];
    &space[..]
}

// How many bytes the heading of a correction has.
pub(crate) fn heading_width(n: usize) -> usize
    requires { n < 1000 }
    ensures { result ≡ length (heading n) }
{
    heading_text(n, &mut [0; 6]).len()
}

// How far bytes go along with the heading of a correction.
fn reach_heading(bytes: &[u8], n: usize) -> usize
    requires { n < 1000 }
    ensures { result ≡ reach (heading n) bytes.now }
{
    let mut space = [0; 6];
    let text = heading_text(n, &mut space);
    (0..text.len())
        .find(|&k| byte_at(bytes, k) != text[k])
        .unwrap_or(text.len())
}

// Whether a byte may stand in a record.
fn is_printable(b: u8) -> bool
    ensures { result ≡ allows printable b }
{
    (b' '..=b'~').contains(&b)
}

// Whether a byte may stand at a place, counted from 0, of a D or A line: its letter, a tab, the 132 bytes of a record and the line feed.
fn change_allows(letter: u8, k: usize, b: u8) -> bool
    requires { k < 135 }
    ensures { result ≡ allows (get_or (change letter) k (exactly 0)) b }
{
    match k {
        0 => b == letter,
        1 => b == b'\t',
        134 => b == b'\n',
        _ => is_printable(b),
    }
}

// How far they go along with a D or A line.
fn reach_change(bytes: &[u8], letter: u8) -> usize
    requires { 0 < letter }
    ensures { result ≡ reach (change letter) bytes.now }
{
    (0..CHANGE_WIDTH)
        .find(|&k| !change_allows(letter, k, byte_at(bytes, k)))
        .unwrap_or(CHANGE_WIDTH)
}

// Whether the heading of a correction stands in front. Most lines are told from one by their letter.
fn heading_stands(bytes: &[u8], n: usize) -> bool
    requires { n < 1000 }
    ensures { result ≡ whole (heading n) bytes.now }
{
    byte_at(bytes, 0) == b'C' && bytes.starts_with(heading_text(n, &mut [0; 6]))
}

// Whether bytes may stand in a record. It looks at them all, as `all` would not: the compiler takes many at once where no byte ends the
// loop.
fn all_printable(bytes: &[u8]) -> bool
    ensures { result ≡ list_all (allows printable) bytes.now }
{
    let mut fine = true;
    for &b in bytes {
        fine &= is_printable(b);
    }
    fine
}

// Whether a D or A line stands in front.
fn change_stands(bytes: &[u8], letter: u8) -> bool
    ensures { result ≡ whole (change letter) bytes.now }
{
    let Some([first, tab, record @ .., end]) = bytes.get(..CHANGE_WIDTH) else {
        return false;
    };
    (*first, *tab, *end) == (letter, b'\t', b'\n') && all_printable(record)
}

// The line that stands in front, where so many corrections have begun; or else the first byte, counted from 1, from which none can be
// completed.
pub(crate) fn line_of(bytes: &[u8], begun: usize) -> Result<Line, usize>
    requires { begun ≤ 200 }
    ensures { result ≡ line_of begun bytes.now }
{
    if heading_stands(bytes, begun + 1) {
        return Ok(Line::Heading);
    }
    if begun == 0 {
        return Err(reach_heading(bytes, begun + 1) + 1);
    }
    if change_stands(bytes, b'D') {
        return Ok(Line::TakenOut);
    }
    if change_stands(bytes, b'A') {
        return Ok(Line::PutIn);
    }
    let headed = reach_heading(bytes, begun + 1);
    let taken = reach_change(bytes, b'D');
    let put = reach_change(bytes, b'A');
    Err(headed.max(taken.max(put)) + 1)
}
