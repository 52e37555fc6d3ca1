// The lines of a correction applied to a state, one after the other.
//
// A line costs one search of a place, and the sources behind it are moved.
ghost use Rattle.std.specs.Prelude.{◌≡◌, ◌≤◌};
ghost use Rattle.applying.specs.State.{Gives};
ghost use Rattle.applying.specs.Apply.{line_applied};
ghost use Rattle.applying.specs.Correct.{Applies};

use crate::lines::{Lines, source_of};
use crate::state::State;
use corrections::Entry;

// One line of a correction: D takes its record out, A puts it in. Says whether it could be applied.
fn apply_line(state: &mut State, line: &Entry) -> bool
    requires { line.now.at ≤ 60000 }
    ensures { Gives state.old (line_applied state.old.frozen state.old.log line.now state.old.sources) result state.new }
{
    let source = source_of(line);
    if line.letter == b'D' {
        let rec = state.record(source);
        return state.take_out(rec);
    }
    state.put_in(source)
}

// The lines of a correction in their order; or the offset of the record of the first that can't be applied.
pub(crate) fn apply_lines(state: &mut State, lines: Lines) -> Result<(), u32>
    ensures { Applies state.old lines.entry.entries.now result state.new }
{
    for line in lines.entries {
        if !apply_line(state, line) {
            return Err(line.at);
        }
    }
    Ok(())
}
