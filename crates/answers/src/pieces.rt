// The pieces that lines are put together from, each written behind the one before it; what is past a buffer's end is dropped.
// Assumes of its callers, all in this crate, offsets that are far from the last number there is. The buffer and the offset stay two parameters:
// in a struct that lends the buffer, what it holds at the end is known only by a name of the toolchain's own, and the proof did not close.
ghost use Rattle.std.specs.Prelude.{◌+◌, ◌≤◌, length};
ghost use Rattle.digits.specs.Decimal.{decimal};
ghost use Rattle.answers.specs.Answers.{tabbed};
ghost use Rattle.routes.specs.Places.{key_of};
ghost use Rattle.answers.specs.Written.{Wrote};

// Columns 1 to 25 are the key of a route.
const KEY: usize = 25;

// Writes a word or a record, and answers the offset behind it.
pub(crate) fn put_word(word: &[u8], out: &mut [u8], at: usize) -> usize
    requires { (at ≤ 20000) × (length word.now ≤ 132) }
    ensures { Wrote out.old out.new at word.now result }
{
    let n = word.len();
    slices::copy(word, 0, out, at, n);
    at + n
}

// Writes a number in digits: those in front of the last by the same means, then the last.
fn put_decimal(n: usize, out: &mut [u8], at: usize) -> usize
    requires { at + length (decimal n) ≤ 40000 }
    ensures { Wrote out.old out.new at (decimal n) result }
{
    if n < 10 {
        slices::put_after(out, at, 0, n as u8 + 48);
        return at + 1;
    }
    let end = put_decimal(n / 10, out, at);
    slices::put_after(out, end, 0, (n % 10) as u8 + 48);
    end + 1
}

// Writes a tab and a number.
pub(crate) fn put_tabbed(n: usize, out: &mut [u8], at: usize) -> usize
    requires { at ≤ 20000 }
    ensures { Wrote out.old out.new at (tabbed n) result × (result ≤ at + 21) }
{
    slices::put_after(out, at, 0, b'\t');
    put_decimal(n, out, at + 1)
}

// Writes columns 1-25 of a record.
pub(crate) fn put_key(rec: &[u8], out: &mut [u8], at: usize) -> usize
    requires { at ≤ 20000 }
    ensures { Wrote out.old out.new at (key_of rec.now) result × (result ≤ at + 25) }
{
    slices::copy(rec, 0, out, at, KEY);
    at + KEY
}
