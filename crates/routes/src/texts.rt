// The two texts that records lie in, side by side: a frozen file and a log. Assumes nothing of the caller: any slices.
ghost use Rattle.std.specs.Prelude.{◌≡◌};
ghost use Rattle.routes.specs.Sources.{record_at};

use crate::record_at;

// The frozen file and the log, of any content and size.
#[derive(Clone, Copy, Debug, PartialEq, Eq)]
pub struct Texts<'a> {
    pub frozen: &'a [u8],
    pub log: &'a [u8],
}

impl<'a> Texts<'a> {
    // The record of a source; empty where it does not lie wholly within the text that the source names.
    pub fn record(self, source: u32) -> &'a [u8]
        ensures { result.now ≡ record_at self.entry.frozen.now self.entry.log.now source }
    {
        record_at(self.frozen, self.log, source)
    }
}
