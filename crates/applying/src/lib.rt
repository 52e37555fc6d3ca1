// The corrections of a log applied to the records of a file, which are given by their sources. Assumes nothing of the caller: any slices,
// any index, any marks, any sources.
#![tactic(auto)]

mod apply;
mod bounds;
mod correct;
mod judge;
mod known;
mod lines;
mod series;
mod state;

ghost use Rattle.std.specs.Prelude.{◌≡◌, false};
ghost use Rattle.applying.specs.Apply.{same_route};
ghost use Rattle.applying.specs.Correct.{no_more, fault_as};
ghost use Rattle.applying.specs.Run.{by_correction, ran_by, marked};
ghost use Rattle.applying.specs.Bounds.{ran_over, ran_over_by, ran_as};

use bounds::bounds;
use corrections::Index;
use known::known_of;
use lines::Lines;
use refusals::{MOST_RECORDS, Refusal};
use routes::{Sources, Texts, record_at};
use series::run_marked;
use state::{State, listed};

// What is wrong where a correction fails. For 10 `at` is the offset in the log of the record whose line can't be applied. For 11 `route` is
// where the records of the refused route lie, as the correction leaves them, and `inner` the refusal of these alone, its place counted from
// the route's start. Nothing but zeros otherwise, and zeros past the route's count.
#[derive(Clone, Copy)]
pub struct Fault {
    pub at: u32,
    pub route: Sources,
    pub inner: Refusal,
}

// Why corrections stop: the refusal, and what is wrong.
#[derive(Clone, Copy)]
pub struct Stopped {
    pub refusal: Refusal,
    pub fault: Fault,
}

// Nothing that is known to be wrong.
pub fn no_fault() -> Fault
    ensures { result ≡ fault_as no_more }
{
    Fault {
        at: 0,
        route: Sources {
            count: 0,
            at: [0u32; MOST_RECORDS],
        },
        inner: Refusal {
            number: 0,
            place: 0,
            column: 0,
        },
    }
}

// Whether the records of two sources are of one route.
pub fn same_route<'a>(frozen: &'a [u8], log: &'a [u8], a: u32, b: u32) -> bool
    ensures { result ≡ same_route frozen.now log.now a b }
{
    let x = record_at(frozen, log, a);
    let y = record_at(frozen, log, b);
    slices::same(x, 0, y, 0, 25)
}

// Whether a number is marked: 1 stands in its byte, where the first byte is that of 0.
pub fn is_marked(marks: &[u8], n: usize) -> bool
    ensures { result ≡ marked marks.now n }
{
    slices::byte_at(marks, n) == 1
}

// Applies so many corrections, those that are marked, in their order, to a state.
fn run_over(mut state: State, lines: Lines, total: usize, marks: &[u8]) -> Result<Sources, Stopped>
    ensures { result ≡ ran_as (ran_by state.entry.judging state.entry.frozen state.entry.log (marked marks.now) 1 (by_correction 1 total lines.entry.entries.now) state.entry.sources) }
{
    run_marked(&mut state, lines, total, marks)?;
    let records = listed(state.sources());
    Ok(records)
}

// Applies the marked corrections of an index in their order, and judges the routes that each names, or not.
fn run_by<'a>(
    judging: bool,
    frozen: &'a [u8],
    log: &'a [u8],
    index: Index,
    marks: &[u8],
    state: Sources,
) -> Result<Sources, Stopped>
    ensures { result ≡ ran_as (ran_over_by judging frozen.now log.now (marked marks.now) index state) }
{
    let texts = Texts { frozen, log };
    let total = index.corrections;
    let lines = match bounds(&index, &state) {
        Ok(lines) => lines,
        Err(refusal) => return Err(Stopped::at_once(refusal)),
    };
    if !judging {
        return run_over(State::new(texts, None, state), lines, total, marks);
    }
    let known = known_of(texts, &state.at[..state.count], lines);
    run_over(State::new(texts, Some(&known), state), lines, total, marks)
}

// Applies the marked corrections of an index in their order: 10 where a line can't be applied, 11 where a route that a correction names is
// refused after it. First of all 2 where more than 480 sources count, and 13 where the index tells of more than any log has.
pub fn run<'a>(
    frozen: &'a [u8],
    log: &'a [u8],
    index: Index,
    marks: &[u8],
    state: Sources,
) -> Result<Sources, Stopped>
    ensures { result ≡ ran_as (ran_over frozen.now log.now (marked marks.now) index state) }
{
    run_by(true, frozen, log, index, marks, state)
}

// The same with no route judged: what 11 would refuse stands. Where nothing is refused by `run`, this is what it answers.
pub fn run_unjudged<'a>(
    frozen: &'a [u8],
    log: &'a [u8],
    index: Index,
    marks: &[u8],
    state: Sources,
) -> Result<Sources, Stopped>
    ensures { result ≡ ran_as (ran_over_by false frozen.now log.now (marked marks.now) index state) }
{
    run_by(false, frozen, log, index, marks, state)
}
