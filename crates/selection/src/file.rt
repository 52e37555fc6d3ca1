// The bytes of a file from the sources of its records. Assumes of its callers, all in this crate, that there are no more than 480 sources.
ghost use Rattle.std.specs.Prelude.{◌≡◌, map, ◌≤◌};
ghost use Rattle.std.proofs.lemmas.List.Edits.{sets};
ghost use Rattle.routes.specs.Sources.{record_at, in_use};
ghost use Rattle.selection.specs.Pick.{stored};

use routes::{LINE_WIDTH, RECORD_WIDTH, Sources, Texts};

// Writes the records of some sources from the front of a buffer on, each with its line feed; what is past its end is dropped.
pub(crate) fn write_records(texts: Texts<'_>, records: &Sources, out: &mut [u8])
    requires { records.now.count ≤ 480 }
    ensures { out.new ≡ sets out.old 0 (stored (map (record_at texts.entry.frozen.now texts.entry.log.now) (in_use records.now))) }
{
    for (i, source) in records.at[..records.count].iter().enumerate() {
        let at = i * LINE_WIDTH;
        slices::copy(texts.record(*source), 0, out, at, RECORD_WIDTH);
        slices::put_after(out, at, RECORD_WIDTH, b'\n');
    }
}
