// The table of the records that may come to stand in a state. Judging one by itself is the dear part of judging a route; here it is done
// once for each record of the file and each A line, and then a route of known records has only its sequence judged, however often it is
// touched.
ghost use Rattle.routes.specs.Known.{Known};

use crate::lines::{Lines, source_of};
use corrections::LONGEST_LOG;
use refusals::MOST_RECORDS;
use routes::known::learn;
use routes::{LINE_WIDTH, Texts};

// How many slots the table has: one for each record of a file, and one for each that a log may hold.
const SLOTS: usize = MOST_RECORDS + LONGEST_LOG / LINE_WIDTH + 1;

// The table of the records that may come to stand in a state: its own, and those that A lines put in.
pub(crate) fn known_of<'a>(texts: Texts<'a>, sources: &[u32], lines: Lines) -> [u32; SLOTS]
    ensures { Known texts.entry.frozen.now texts.entry.log.now result }
{
    let mut known = [0u32; SLOTS];
    for source in sources {
        learn(texts.frozen, texts.log, *source, &mut known);
    }
    for line in lines.entries {
        if line.letter == b'A' {
            learn(texts.frozen, texts.log, source_of(line), &mut known);
        }
    }
    known
}
