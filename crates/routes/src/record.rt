// The bytes of a record within a slice. Assumes nothing.
ghost use Rattle.std.specs.Prelude.{◌≡◌};
ghost use Rattle.routes.specs.Sources.{record_within};

use crate::RECORD_WIDTH;

// The 132 bytes from an offset on; empty where they do not lie wholly within.
pub(crate) fn within(s: &[u8], at: u32) -> &[u8]
    ensures { result.now ≡ record_within s.now at }
{
    let at = at as usize;
    s.get(at..at + RECORD_WIDTH).unwrap_or(&[])
}
