// The corrections of a log, one after the other, those that are marked.
ghost use Rattle.std.specs.Prelude.{◌≡◌};
ghost use Rattle.applying.specs.Correct.{Comes};
ghost use Rattle.applying.specs.Run.{leading_lines, by_correction, ran_by, marked};

use crate::correct::correct;
use crate::lines::Lines;
use crate::state::State;
use crate::{Stopped, is_marked};
use corrections::Entry;

// How many of the lines in front are of correction n.
fn leading_lines(entries: &[Entry], n: usize) -> usize
    ensures { result ≡ leading_lines n entries.now }
{
    entries
        .iter()
        .position(|line| line.correction as usize != n)
        .unwrap_or(entries.len())
}

// Applies those of so many corrections that are marked, in order, to a state. The lines of all stand one after the other.
pub(crate) fn run_marked(
    state: &mut State,
    lines: Lines,
    total: usize,
    marks: &[u8],
) -> Result<(), Stopped>
    ensures { Comes state.old (ran_by state.old.judging state.old.frozen state.old.log (marked marks.now) 1 (by_correction 1 total lines.entry.entries.now) state.old.sources) result state.new }
{
    let mut rest = lines;
    for n in 0..total {
        let (own, behind) = rest.split_at(leading_lines(rest.entries, n + 1));
        rest = behind;
        if !is_marked(marks, n + 1) {
            continue;
        }
        correct(state, own, n + 1)?;
    }
    Ok(())
}
