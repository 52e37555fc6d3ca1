// One correction applied to a state: 10 where a line can't be applied, 11 where a route that its lines name is refused.
ghost use Rattle.std.specs.Prelude.{◌≡◌};
ghost use Rattle.refusals.specs.Table.{does_not_apply, route_refused};
ghost use Rattle.applying.specs.Correct.{no_more, wrong_line, fault_as, corrected_by, Comes};

use crate::apply::apply_lines;
use crate::judge::judge_touched;
use crate::lines::Lines;
use crate::state::State;
use crate::{Fault, Stopped, no_fault};
use refusals::Refusal;

impl Stopped {
    // An index or sources that no log and no file has.
    pub(crate) fn at_once(refusal: Refusal) -> Self
        ensures { result ≡ record { refusal = refusal; fault = fault_as no_more } }
    {
        Stopped {
            refusal,
            fault: no_fault(),
        }
    }

    // Correction n stops at a line, which is told by the offset of its record.
    fn at_line(n: usize, at: u32) -> Self
        ensures { result ≡ record { refusal = does_not_apply n; fault = fault_as (wrong_line at) } }
    {
        Stopped {
            refusal: Refusal::does_not_apply(n),
            fault: Fault { at, ..no_fault() },
        }
    }

    // Correction n stops at a route, by the refusal of that.
    fn at_route(n: usize, fault: Fault) -> Self
        ensures { result ≡ record { refusal = route_refused n fault.inner.number; fault = fault } }
    {
        Stopped {
            refusal: Refusal::route_refused(n, fault.inner.number),
            fault,
        }
    }
}

// Applies the lines of correction n, and judges the routes that they name where routes are judged.
pub(crate) fn correct(state: &mut State, lines: Lines, n: usize) -> Result<(), Stopped>
    ensures { Comes state.old (corrected_by state.old.frozen state.old.log state.old.judging n lines.entry.entries.now state.old.sources) result state.new }
{
    apply_lines(state, lines).map_err(|at| Stopped::at_line(n, at))?;
    if state.judges() {
        judge_touched(state, lines).map_err(|fault| Stopped::at_route(n, fault))?;
    }
    Ok(())
}
