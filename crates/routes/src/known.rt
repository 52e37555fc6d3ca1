// Which records are known to be legal by themselves. Judging one by itself is the dear part of judging a route; with a table of those that
// were, a route of known records has only its sequence judged, however often that is asked. Assumes nothing of the caller: any table.
ghost use Rattle.std.specs.Prelude.{◌≡◌};
ghost use Rattle.routes.specs.Known.{slot, knows, learned};

use crate::{FIRST_OF_LOG, LINE_WIDTH, record_at};
use refusals::MOST_RECORDS;

// A table that knows no record.
pub(crate) const NOTHING_KNOWN: [u32; 1] = [0];

// The slot of a source in a table: one for each record of a file, then one for each that a log may hold.
fn slot(source: u32) -> usize
    ensures { result ≡ slot source }
{
    if source < FIRST_OF_LOG {
        source as usize / LINE_WIDTH
    } else {
        MOST_RECORDS + (source - FIRST_OF_LOG) as usize / LINE_WIDTH
    }
}

// Whether the table knows the record of a source.
pub(crate) fn knows(known: &[u32], source: u32) -> bool
    ensures { result ≡ knows known.now source }
{
    let held = known.get(slot(source)).copied().unwrap_or(0);
    held as usize == source as usize + 1
}

// Puts the record of a source into the table, if it is legal by itself. A source is left out where the table has no slot for it, and so is
// the largest, since one more does not fit into a slot.
pub fn learn<'a>(frozen: &'a [u8], log: &'a [u8], source: u32, known: &mut [u32])
    ensures { known.new ≡ learned frozen.now log.now source known.old }
{
    let Some(next) = source.checked_add(1) else {
        return;
    };
    let i = slot(source);
    if i < known.len() && leg::judge(record_at(frozen, log, source), 1).is_ok() {
        known[i] = next;
    }
}
