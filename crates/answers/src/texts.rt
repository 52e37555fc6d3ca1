// The lines of the answers. Assumes of its callers, all in this crate, that a pick takes no more than 200 corrections.
ghost use Rattle.std.specs.Prelude.{◌+◌, ◌≤◌, length, take};
ghost use Rattle.answers.specs.Answers.{no_line, count_line, take_line, take_lines, picked_text};
ghost use Rattle.answers.specs.Written.{Wrote};

use crate::pieces::{put_tabbed, put_word};
use refusals::{Refusal, Verdict};
use selection::Picked;

// Writes a refusal's line, and answers the offset behind it.
pub(crate) fn put_no(refusal: Refusal, out: &mut [u8]) -> usize
    ensures { Wrote out.old out.new 0 (no_line refusal) result × (result ≤ 66) }
{
    let word = put_word(b"no", out, 0);
    let number = put_tabbed(refusal.number as usize, out, word);
    let place = put_tabbed(refusal.place, out, number);
    let column = put_tabbed(refusal.column, out, place);
    put_word(b"\n", out, column)
}

// Writes a word and two counts.
pub(crate) fn put_counts(word: &[u8], a: usize, b: usize, out: &mut [u8]) -> usize
    requires { length word.now ≤ 10 }
    ensures { Wrote out.old out.new 0 (count_line word.now a b) result × (result ≤ 53) }
{
    let front = put_word(word, out, 0);
    let first = put_tabbed(a, out, front);
    let second = put_tabbed(b, out, first);
    put_word(b"\n", out, second)
}

// Writes the line of a correction that is taken.
fn put_take(n: usize, out: &mut [u8], at: usize) -> usize
    requires { at ≤ 9000 }
    ensures { Wrote out.old out.new at (take_line n) result × (result ≤ at + 26) }
{
    let word = put_word(b"take", out, at);
    let number = put_tabbed(n, out, word);
    put_word(b"\n", out, number)
}

// Writes a line for each correction that is taken.
fn put_taken(picked: Picked, out: &mut [u8], at: usize) -> usize
    requires { (picked.count ≤ 200) × (at ≤ 53) }
    ensures { Wrote out.old out.new at (take_lines (take picked.count picked.taken)) result }
{
    let count = picked.count;
    let mut end = at;
    for i in 0..count {
        end = put_take(picked.taken[i] as usize, out, end);
    }
    end
}

// Writes what a pick comes to.
pub(crate) fn put_picked(picked: Picked, out: &mut [u8]) -> usize
    requires { picked.count ≤ 200 }
    ensures { Wrote out.old out.new 0 (picked_text picked) result }
{
    match picked.verdict {
        Ok(()) => {
            let end = put_counts(b"pick", picked.count, picked.records.count, out);
            put_taken(picked, out, end)
        }
        Err(r) => put_no(r, out),
    }
}
