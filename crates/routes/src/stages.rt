// One record judged after what stands before it, by the stages that look at what stands around it: 6 continuations, 7 order, 8 legs. Assumes
// nothing of the caller.
ghost use Rattle.std.specs.Prelude.{◌≡◌, cond, eqb, Option, None, Some};
ghost use Rattle.routes.specs.Stages.{
  seen,
  columns_to,
  number_after,
  first_difference,
  found,
  awaits,
  continuation_column,
  continuation_stage,
  sequence_stage,
  order_stage,
  leg_stands,
  leg_stage,
  ending_stage,
};
ghost use Rattle.routes.specs.Known.{judged_knowing};
ghost use Rattle.routes.specs.Walk.{primary_after, judged_behind};

use crate::pairs::{Leg, pair};
use crate::{HEAD, KEY, NUMBER};
use columns::Kind;
use leg::terminator::Terminator;
use refusals::{Refusal, Verdict};
use slices::{byte_at, compare, same};
use std::cmp::Ordering;

// The continuation number after a number, or 0 where none comes after it. It is no Option: the definition that the stage is said by compares a
// record's number with that 0 as well.
#[tactic(auto, unfolding(crate::specs::Stages::number_after))]
fn number_after(b: u8) -> u8
    ensures { result ≡ number_after b }
{
    match b {
        b'9' => b'A',
        b'1'..=b'8' | b'A'..=b'Y' => b + 1,
        _ => 0,
    }
}

// The first of n columns in which two records differ. Mostly there is none, which is seen at once.
fn first_difference(a: &[u8], b: &[u8], n: usize) -> Option<usize>
    ensures { result ≡ found (first_difference 1 (columns_to n a.now) (columns_to n b.now)) }
{
    if same(a, 0, b, 0, n) {
        return None;
    }
    for k in 0..n {
        if byte_at(a, k) != byte_at(b, k) {
            return Some(k + 1);
        }
    }
    None
}

// Whether the record is a primary 1, whose continuation has to come next.
#[tactic(auto, unfolding(crate::specs::Stages::awaits))]
pub(crate) fn awaits(rec: &[u8]) -> bool
    ensures { result ≡ awaits 39 rec.now }
{
    byte_at(rec, NUMBER - 1) == b'1'
}

// What stands before a record: the last primary, and the record before this one. Both are empty where nothing does.
#[derive(Clone, Copy)]
pub(crate) struct Seen<'a> {
    pub(crate) primary: &'a [u8],
    pub(crate) before: &'a [u8],
}

impl<'a> Seen<'a> {
    // What stands before the record behind this one.
    #[tactic(auto, unfolding(crate::specs::Walk::primary_after))]
    pub(crate) fn after(self, rec: &'a [u8]) -> Seen<'a>
        ensures primary { result.primary.now ≡ primary_after self.entry.primary.now rec.now }
        ensures before { result.before.now ≡ rec.now }
    {
        match columns::kind_of(rec) {
            Kind::Primary => Seen {
                primary: rec,
                before: rec,
            },
            Kind::Continuation => Seen {
                primary: self.primary,
                before: rec,
            },
        }
    }

    // The column at which a record is no right continuation, or stands where a continuation has to come.
    #[tactic(auto, unfolding(crate::specs::Stages::continuation_column, crate::specs::Stages::found))]
    fn continuation_column(self, kind: Kind, rec: &[u8]) -> Option<usize>
        ensures { result ≡ found (continuation_column 38 39 kind (seen self.entry.primary.now self.entry.before.now) rec.now) }
    {
        match kind {
            Kind::Primary => awaits(self.before).then_some(NUMBER),
            Kind::Continuation => {
                if byte_at(rec, NUMBER - 1) == number_after(byte_at(self.before, NUMBER - 1)) {
                    first_difference(self.primary, rec, HEAD)
                } else {
                    Some(NUMBER)
                }
            }
        }
    }

    // Stage 6.
    fn continuation_stage(self, kind: Kind, rec: &[u8], place: usize) -> Verdict
        ensures { result ≡ continuation_stage 38 39 kind (seen self.entry.primary.now self.entry.before.now) place rec.now }
    {
        match self.continuation_column(kind, rec) {
            Some(column) => Err(Refusal::continuation_head(place, column)),
            None => Ok(()),
        }
    }

    // Whether the sequence number has risen since the last primary, which is of the same route.
    #[tactic(auto, unfolding(crate::specs::Stages::sequence_stage))]
    fn sequence_stage(self, rec: &[u8], place: usize) -> Verdict
        ensures { result ≡ sequence_stage self.entry.primary.now place rec.now }
    {
        if compare(self.primary, 26, rec, 26, 3).is_lt() {
            Ok(())
        } else {
            Err(Refusal::sequence_not_risen(place))
        }
    }

    // Stage 7: the route has risen since the last primary, or the sequence number where it is the same.
    #[tactic(auto, unfolding(crate::specs::Stages::order_stage))]
    fn order_stage(self, kind: Kind, rec: &[u8], place: usize) -> Verdict
        ensures { result ≡ order_stage 25 kind self.entry.primary.now place rec.now (sequence_stage self.entry.primary.now place rec.now) }
    {
        match kind {
            Kind::Primary => match compare(self.primary, 0, rec, 0, KEY) {
                Ordering::Less => Ok(()),
                Ordering::Equal => self.sequence_stage(rec, place),
                Ordering::Greater => Err(Refusal::route_not_later(place)),
            },
            Kind::Continuation => Ok(()),
        }
    }

    // Whether a primary may follow the last one of its route, or be the first of it.
    #[tactic(auto, unfolding(crate::specs::Stages::leg_stands))]
    fn leg_stands(self, rec: &[u8]) -> bool
        ensures { result ≡ leg_stands 25 self.entry.primary.now rec.now }
    {
        if same(self.primary, 0, rec, 0, KEY) {
            pair(Terminator::of(self.primary), Terminator::of(rec))
        } else {
            Leg::of(rec).may_begin()
        }
    }

    // Stage 8, of a primary and what stands before it.
    #[tactic(auto, unfolding(crate::specs::Stages::leg_stage))]
    fn leg_stage(self, kind: Kind, rec: &[u8], place: usize) -> Verdict
        ensures { result ≡ leg_stage 25 kind self.entry.primary.now place rec.now }
    {
        match kind {
            Kind::Primary => {
                if self.leg_stands(rec) {
                    Ok(())
                } else {
                    Err(Refusal::leg_pair(place))
                }
            }
            Kind::Continuation => Ok(()),
        }
    }

    // Judges one record by what stands before it, and by whether it is the last leg of its route: 6, 7, 8.
    #[tactic(auto, unfolding(crate::specs::Walk::judged_behind, crate::specs::InTurn::in_turn))]
    fn judge_behind(self, rec: &[u8], place: usize, last: bool) -> Verdict
        ensures { result ≡ judged_behind (seen self.entry.primary.now self.entry.before.now) place last rec.now }
    {
        let kind = columns::kind_of(rec);
        self.continuation_stage(kind, rec, place)?;
        self.order_stage(kind, rec, place)?;
        self.leg_stage(kind, rec, place)?;
        ending_stage(last, rec, place)
    }

    // Judges one record after what stands before it: 3, 4, 5 by itself, unless it is known to be legal, then 6, 7, 8.
    #[tactic(auto, unfolding(crate::specs::Known::judged_knowing, crate::specs::Walk::judged_next, crate::specs::Walk::judged_behind, crate::specs::InTurn::in_turn))]
    pub(crate) fn judge_next(self, known: bool, rec: &[u8], place: usize, last: bool) -> Verdict
        ensures { result ≡ judged_knowing known (seen self.entry.primary.now self.entry.before.now) place last rec.now }
    {
        if !known {
            leg::judge(rec, place)?;
        }
        self.judge_behind(rec, place, last)
    }
}

// Stage 8, of the last leg of a route.
#[tactic(auto, unfolding(crate::specs::Stages::ending_stage))]
fn ending_stage(last: bool, rec: &[u8], place: usize) -> Verdict
    ensures { result ≡ ending_stage last place rec.now }
{
    if last && !Leg::of(rec).may_end() {
        Err(Refusal::leg_ending(place))
    } else {
        Ok(())
    }
}
