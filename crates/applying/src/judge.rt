// The routes that a correction's lines name, each judged alone in the state that the correction left.
//
// Where places rise, the records of a line's route are found by halves and judged, and that is all while each stands. The first that is
// refused is found by going over all routes in their order: each record of the state costs one comparison of 25 bytes with the first of its
// route, and each route one with each line of the correction.
ghost use Rattle.std.specs.Prelude.{◌≡◌, true, map, ◌+◌, ◌≤◌, length, drop};
ghost use Rattle.refusals.specs.Table.{Accepted};
ghost use Rattle.routes.specs.Places.{place_of, Rising};
ghost use Rattle.routes.specs.Sources.{record_at};
ghost use Rattle.applying.specs.Apply.{touched, together, touched_judged, RouteStands};
ghost use Rattle.applying.specs.Correct.{Judges};

use crate::Fault;
use crate::lines::{Lines, source_of};
use crate::state::{State, listed};

// How many bytes the key of a route has.
const KEY: usize = 25;

// Whether one of some lines names the route of a source.
fn touches(state: &State, lines: Lines, source: u32) -> bool
    ensures { result ≡ touched state.now.frozen state.now.log lines.entry.entries.now source }
{
    for line in lines.entries {
        if state.same_route(source_of(line), source) {
            return true;
        }
    }
    false
}

// Where those end, from one on, that are of one route with a source: the place of the first that is of another route.
fn route_end(state: &State, from: usize, source: u32) -> usize
    requires { from ≤ length state.now.sources }
    ensures { result ≡ from + together state.now.frozen state.now.log source (drop from state.now.sources) }
{
    let behind = &state.sources()[from..];
    from + behind
        .iter()
        .position(|next| !state.same_route(source, *next))
        .unwrap_or(behind.len())
}

// Judges the routes that lines name, in rising order; or tells of the first that is refused.
fn judge_in_turn(state: &State, lines: Lines) -> Result<(), Fault>
    ensures { Judges state.now lines.entry.entries.now result }
{
    let sources = state.sources();
    let mut i = 0;
    while i < sources.len() {
        let source = sources[i];
        let end = route_end(state, i + 1, source);
        if touches(state, lines, source) {
            if let Err(inner) = state.judge(i, end) {
                return Err(Fault {
                    at: 0,
                    route: listed(&sources[i..end]),
                    inner,
                });
            }
        }
        i = end;
    }
    Ok(())
}

// Whether the route of a source stands, where places rise. Its records are searched by their key alone, whose place is before all of them. A no
// is no verdict: it is judged in its turn then.
fn route_stands(state: &State, source: u32) -> bool
    requires { Rising (map place_of (map (record_at state.now.frozen state.now.log) state.now.sources)) }
    ensures { result ≡ true → RouteStands state.now.frozen state.now.log state.now.sources source }
{
    let rec = state.record(source);
    if rec.len() < KEY {
        return false;
    }
    let key = &rec[..KEY];
    let first = state.count_before(key);
    let end = route_end(state, first, source);
    state.judge(first, end).is_ok()
}

// Whether every route stands that lines name, where places rise; one that the line before names too is not asked again. A no is no verdict.
fn all_stand(state: &State, lines: Lines) -> bool
    requires { Rising (map place_of (map (record_at state.now.frozen state.now.log) state.now.sources)) }
    ensures { result ≡ true → touched_judged state.now.frozen state.now.log lines.entry.entries.now 0 state.now.sources ≡ Accepted }
{
    let mut before = None;
    for line in lines.entries {
        let source = source_of(line);
        if let Some(other) = before {
            if state.same_route(other, source) {
                continue;
            }
        }
        if !route_stands(state, source) {
            return false;
        }
        before = Some(source);
    }
    true
}

// Judges the routes that lines name, in rising order; or tells of the first that is refused.
pub(crate) fn judge_touched(state: &State, lines: Lines) -> Result<(), Fault>
    ensures { Judges state.now lines.entry.entries.now result }
{
    if state.rises() {
        if all_stand(state, lines) {
            return Ok(());
        }
    }
    judge_in_turn(state, lines)
}
