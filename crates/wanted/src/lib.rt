// The corrections that are wanted, as a list of numbers, one on each line. Assumes nothing of the caller: any bytes.
#![tactic(auto)]

ghost use Rattle.std.specs.Prelude.{◌≡◌, ◌+◌, drop};
ghost use Rattle.wanted.specs.Numbers.{to_line_feed, number_at, wanted_of};

use digits::{all_digits, number};
use slices::line_feed;

// The numbers in their order, and zeros past the count. The count stays beside them: memory is fixed, and `wanted_of` speaks of both.
#[derive(Clone, Copy)]
pub struct Wanted {
    pub count: usize,
    pub at: [u32; 201],
}

// The number of the line that begins at i and has its line feed at `end`, or has none where `end` is the text's end.
fn line_number(text: &[u8], i: usize, end: usize) -> u32
    requires { end ≡ i + to_line_feed (drop i text.now) }
    ensures { result ≡ number_at i text.now }
{
    if text.len() <= end {
        return 0;
    }
    let n = end - i;
    if n == 0 {
        return 0;
    }
    if 3 < n {
        return 0;
    }
    if !all_digits(text, i, n) {
        return 0;
    }
    number(text, i, n)
}

// The numbers of a text: of its first 200 lines, and a 0 where it has more.
pub fn numbers(text: &[u8]) -> Wanted
    ensures { result ≡ wanted_of text.now }
{
    let mut found = Wanted {
        count: 0,
        at: [0; 201],
    };
    let mut i = 0;
    for k in 0..200 {
        if text.len() <= i {
            return found;
        }
        let end = line_feed(text, i);
        found.at[k] = line_number(text, i, end);
        found.count = k + 1;
        if text.len() <= end {
            return found;
        }
        i = end + 1;
    }
    if i < text.len() {
        found.at[200] = 0;
        found.count = 201;
    }
    found
}
