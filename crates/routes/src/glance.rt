// A quick yes: records that are seen at a glance to stand, since each is known, is a primary without continuations, and is behind the one
// before it in one route. Routes are nearly always so, and a route is judged again with every correction of it. What is not so is not
// refused here: the walk says what it is. Assumes nothing of the caller.
ghost use Rattle.std.specs.Prelude.{◌≡◌, true, IfSome};
ghost use Rattle.refusals.specs.Table.{Accepted};
ghost use Rattle.routes.specs.Known.{walked_knowing};
ghost use Rattle.routes.specs.Glance.{lone, Begins, Follows, Standing};

use crate::known::knows;
use crate::pairs::{Leg, pair};
use crate::{KEY, NUMBER, Texts};
use leg::terminator::Terminator;
use slices::{byte_at, compare, same};

// Whether a record is a primary without continuations.
#[tactic(auto, unfolding(crate::specs::Glance::lone))]
fn lone(rec: &[u8]) -> bool
    ensures { result ≡ lone rec.now }
{
    byte_at(rec, NUMBER - 1) == b'0'
}

// Whether a leg may come first: it begins its route, and this is later than none at all, which is one of nothing but 0.
fn begins<'a>(leg: Leg<'a>) -> bool
    ensures { result ≡ true → Begins leg.entry.rec.now }
{
    lone(leg.rec) && byte_at(leg.rec, 0) != 0 && leg.may_begin()
}

// The leg of a record, if it may stand behind another in one route. That is of the kind of the one before it.
fn next<'a>(before: Leg<'a>, rec: &'a [u8]) -> Option<Leg<'a>>
    ensures { IfSome result (λ leg. (leg.rec.now ≡ rec.now) × Follows before.entry.rec.now rec.now) }
{
    if !lone(rec) || !same(before.rec, 0, rec, 0, KEY) {
        return None;
    }
    let leg = Leg {
        rec,
        kind: before.kind,
        terminator: Terminator::of(rec),
    };
    if compare(before.rec, 26, rec, 26, 3).is_lt() && pair(before.terminator, leg.terminator) {
        Some(leg)
    } else {
        None
    }
}

// Whether the records of some sources stand behind a first, each behind the one before it, and the last may end the route. The terminator of
// each is found once: it is asked behind the one before, and before the next.
fn stand_behind<'a>(texts: Texts<'a>, known: &[u32], sources: &[u32], first: Leg<'a>) -> bool
    ensures { result ≡ true → Standing known.now texts.entry.frozen.now texts.entry.log.now first.entry.rec.now sources.now }
{
    let mut before = first;
    for &source in sources {
        if !knows(known, source) {
            return false;
        }
        let Some(leg) = next(before, texts.record(source)) else {
            return false;
        };
        before = leg;
    }
    before.may_end()
}

// Whether the records of some sources are seen at a glance to be accepted. No is no answer.
pub(crate) fn stand<'a>(texts: Texts<'a>, known: &[u32], sources: &[u32]) -> bool
    ensures { result ≡ true → walked_knowing known.now texts.entry.frozen.now texts.entry.log.now sources.now ≡ Accepted }
{
    let Some((&source, behind)) = sources.split_first() else {
        return false;
    };
    if !knows(known, source) {
        return false;
    }
    let first = Leg::of(texts.record(source));
    begins(first) && stand_behind(texts, known, behind, first)
}
