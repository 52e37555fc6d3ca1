// The lines of an index, once it is known that each lies within a log.
ghost use Rattle.std.specs.Prelude.{◌≡◌, ◌≤◌, length, take, drop};
ghost use Rattle.applying.specs.Apply.{WithinLog, source_of};

use corrections::Entry;
use routes::log_source;

// Some lines, each of which lies within the longest log.
#[derive(Clone, Copy)]
pub(crate) struct Lines<'a> {
    pub entries: &'a [Entry],
    ghost within: { WithinLog entries.now },
}

impl<'a> Lines<'a> {
    // The first of them, so many, and those behind.
    pub(crate) fn split_at(self, count: usize) -> (Lines<'a>, Lines<'a>)
        requires { count ≤ length self.entries.now }
        ensures { (result.0.entries.now ≡ take count self.entry.entries.now) × (result.1.entries.now ≡ drop count self.entry.entries.now) }
    {
        let front = Lines {
            entries: &self.entries[..count],
        };
        let behind = Lines {
            entries: &self.entries[count..],
        };
        (front, behind)
    }
}

// The source of the record of a line that lies within the longest log.
pub(crate) fn source_of(line: &Entry) -> u32
    requires { line.now.at ≤ 60000 }
    ensures { result ≡ source_of line.now }
{
    log_source(line.at as u16)
}
