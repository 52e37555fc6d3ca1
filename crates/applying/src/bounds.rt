// What an index and sources may have, so that the corrections of one can be applied to the other. Assumes nothing.
ghost use Rattle.applying.specs.Bounds.{Bounds};

use crate::lines::Lines;
use corrections::{Entry, Index, LONGEST_LOG, MOST_CHANGES};
use refusals::{MOST_RECORDS, Refusal};
use routes::Sources;

// The lines of an index. Refuses what no log and no file has: 2 where more than 480 sources count, 13 where the index has more than 444 lines
// or one past byte 60,000.
pub(crate) fn bounds<'a>(index: &'a Index, state: &Sources) -> Result<Lines<'a>, Refusal>
    ensures { Bounds index.now state.now result }
{
    if MOST_RECORDS < state.count {
        return Err(Refusal::too_many_records());
    }
    if MOST_CHANGES < index.count {
        return Err(Refusal::log_too_long());
    }
    let entries: &[Entry] = &index.entries;
    if entries.iter().any(|entry| LONGEST_LOG < entry.at as usize) {
        return Err(Refusal::log_too_long());
    }
    Ok(Lines {
        entries: &entries[..index.count],
    })
}
