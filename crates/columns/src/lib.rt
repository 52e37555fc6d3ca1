// Which byte may stand in which column of a record. The layouts are data (specs/Layout.antt); one matcher holds a record to the table
// of bytes that it is lent, behind a quick yes for what most primary records hold. Assumes nothing of the caller: a record is any slice, and
// a byte past its end reads as 0, which is legal nowhere.
#![tactic(auto)]

mod byte_sets;
pub mod field;
mod matcher;
mod quick;
mod row;
mod tables;

ghost use Rattle.std.specs.Prelude.{◌≡◌};
ghost use Rattle.columns.specs.Kinds.{kind_of, layout_of, first_bad_field, bad_byte};
ghost use Rattle.columns.specs.Found.{FirstWrong};

use field::Field;
use row::Row;

#[derive(Clone, Copy, Debug, PartialEq, Eq)]
pub enum Kind {
    Primary,
    Continuation,
}

// Which kind a record is, by column 39: 2 to 9 and A to Z number a continuation, anything else is judged as a primary.
#[tactic(auto, unfolding(crate::specs::Kinds::kind_of))]
pub fn kind_of(rec: &[u8]) -> Kind
    ensures { result ≡ kind_of rec.now }
{
    if byte_sets::in_set(b'k', slices::byte_at(rec, Field::CONTINUATION.0 - 1)) {
        Kind::Continuation
    } else {
        Kind::Primary
    }
}

// The leftmost row of the record's own layout that it does not fit.
#[tactic(auto, unfolding(crate::specs::Kinds::layout_of))]
fn first_wrong(rec: &[u8]) -> Option<Row<'_>>
    ensures { FirstWrong (layout_of (kind_of rec.now)) rec.now result }
{
    match kind_of(rec) {
        Kind::Primary => tables::first_wrong_of_primary(rec),
        Kind::Continuation => tables::first_wrong_of_continuation(rec),
    }
}

// The first column of the leftmost field of the record's own layout that holds nothing legal, or 0 where every field holds something
// legal: a number and no Option, as `legal` and `no_legal_record`, the theorems on it, have it.
#[tactic(auto, using(crate::proofs::Turns::said_of), unfolding(crate::specs::Kinds::first_bad_field))]
pub fn first_bad(rec: &[u8]) -> usize
    ensures { result ≡ first_bad_field rec.now }
{
    first_wrong(rec).map_or(0, |row| row.column())
}

// The first column of that field at which no legal content of the field begins with its bytes so far, or 0 where every field holds
// something legal.
#[tactic(auto, using(crate::proofs::Turns::said_of), unfolding(crate::specs::Kinds::bad_byte))]
pub fn bad_byte(rec: &[u8]) -> usize
    ensures { result ≡ bad_byte rec.now }
{
    first_wrong(rec).map_or(0, |row| row.stop())
}
