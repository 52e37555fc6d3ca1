// Numbers in decimal digits, read from a field's columns and put there between marks. Assumes of its callers, all in this crate, that
// columns count to 132, a number has at most six digits, and a mark at most two letters.
ghost use Rattle.std.specs.Prelude.{◌≡◌, [], ◌+◌, ◌-◌, ◌^◌, ◌≤◌, ◌<◌, length};
ghost use Rattle.std.proofs.lemmas.List.Edits.{sets};
ghost use Rattle.slices.specs.Part.{part};
ghost use Rattle.digits.specs.Digits.{value};
ghost use Rattle.columns.specs.Fields.{bytes_in};
ghost use Rattle.fields.specs.Pieces.{fill};
ghost use Rattle.fields.specs.Numbers.{digits_of, marked_digits};

use crate::text::start;
use columns::field::Field;
use digits::number;
use slices::{copy, put_after};

// Puts the digits of a number that has at most `width` of them.
fn put_digits(out: &mut [u8], at: usize, width: usize, n: u32)
    requires { (width ≤ 6) × (n < 10 ^ width) }
    ensures { out.new ≡ sets out.old at (digits_of width n) }
{
    let mut rest = n;
    for k in 0..width {
        let unit = 10u32.pow((width - k - 1) as u32);
        put_after(out, at, k, (48 + rest / unit) as u8);
        rest = rest % unit;
    }
}

// Puts a number of `width` digits between its marks; one of more digits leaves a byte 0, which is legal nowhere.
#[tactic(auto, using(crate::proofs::PutLaws::put_fits, crate::proofs::PutLaws::put_unfit))]
pub(crate) fn put_marked(
    out: &mut [u8],
    field: Field,
    before: &[u8],
    width: usize,
    after: &[u8],
    n: u32,
)
    requires { (field.0 ≤ 132) × (length before.now ≤ 2) × (width ≤ 6) }
    ensures { out.new ≡ fill field (marked_digits before.now width after.now n) out.old }
{
    let at = start(field);
    if n < 10u32.pow(width as u32) {
        let from = at + before.len();
        copy(before, 0, out, at, before.len());
        put_digits(out, from, width, n);
        copy(after, 0, out, from + width, after.len());
    } else {
        put_after(out, at, 0, 0);
    }
}

// Puts a number of as many digits as the field has columns.
pub(crate) fn put_number(out: &mut [u8], field: Field, n: u32)
    requires { (field.0 ≤ 132) × (field.1 ≤ 6) }
    ensures { out.new ≡ fill field (marked_digits [] field.1 [] n) out.old }
{
    put_marked(out, field, b"", field.1, b"", n);
}

// The number that a field's columns say.
#[tactic(auto, using(crate::proofs::ReadLaws::six_digits))]
pub(crate) fn number_in(rec: &[u8], field: Field) -> u32
    requires { field.1 ≤ 6 }
    ensures { result ≡ value (bytes_in field rec.now) }
{
    number(rec, start(field), field.1)
}

// The number that `width` of a field's columns say, past its first k.
#[tactic(auto, using(crate::proofs::ReadLaws::six_digits))]
pub(crate) fn number_within(rec: &[u8], field: Field, k: usize, width: usize) -> u32
    requires { (field.0 ≤ 132) × (k ≤ 6) × (width ≤ 6) }
    ensures { result ≡ value (part width (field.0 - 1 + k) rec.now) }
{
    number(rec, start(field) + k, width)
}
