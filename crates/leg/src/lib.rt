// One record judged: the content of its fields, its companions, the fields that its leg needs. Assumes nothing of the caller: a record
// is any slice.
#![tactic(auto)]

mod stages;
pub mod terminator;

ghost use Rattle.std.specs.Prelude.{◌≡◌};
ghost use Rattle.leg.specs.Judge.{judged, judged_by, judged_leg, judged_parts};

use columns::Kind;
use refusals::{Refusal, Verdict};

// Stages 4 and 5, of a primary record.
fn judge_leg(rec: &[u8], place: usize) -> Verdict
    ensures { result ≡ judged_leg place rec.now }
{
    if let Some(column) = stages::companion_column(rec) {
        return Err(Refusal::companion_blank(place, column));
    }
    if let Some(column) = stages::needed_column(rec) {
        return Err(Refusal::needed_blank(place, column));
    }
    Ok(())
}

// All three stages, of which the first found a column, or 0: so `columns` answers, by its contract.
#[tactic(auto, using(crate::proofs::StageLaws::stage_refuses, crate::proofs::StageLaws::stage_passes))]
fn judge_by(column: usize, rec: &[u8], place: usize) -> Verdict
    ensures { result ≡ judged_by column place rec.now }
{
    if column != 0 {
        return Err(Refusal::field_content(place, column));
    }
    match columns::kind_of(rec) {
        Kind::Primary => judge_leg(rec, place),
        Kind::Continuation => Ok(()),
    }
}

// Judges one record by itself, as the one at a place: 3 for the first byte at which the leftmost field that holds nothing legal can't go on
// to anything legal, 4 for a companion that is blank, 5 for a needed field that is blank, in this order. A continuation has the first of
// these stages alone.
#[tactic(auto, unfolding(crate::specs::Judge::judged))]
pub fn judge(rec: &[u8], place: usize) -> Verdict
    ensures { result ≡ judged place rec.now }
{
    judge_by(columns::bad_byte(rec), rec, place)
}

// The same of a record that parts make: 3 has the first column of the field, wherever in it the trouble lies.
#[tactic(auto, unfolding(crate::specs::Judge::judged_parts))]
pub fn judge_parts(rec: &[u8], place: usize) -> Verdict
    ensures { result ≡ judged_parts place rec.now }
{
    judge_by(columns::first_bad(rec), rec, place)
}
