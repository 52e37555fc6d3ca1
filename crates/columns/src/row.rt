// A row of a table, beside the record whose field it speaks of. A byte past the table's end reads as 0. Assumes of its callers that the row stands
// early enough in its table, and its field in a record, for sums of them to fit.
ghost use Rattle.std.specs.Prelude.{◌≡◌, ◌+◌, ◌*◌, ◌<◌, get_or};

use slices::byte_at;

#[derive(Clone, Copy)]
pub(crate) struct Row<'a> {
    pub(crate) table: &'a [u8],
    pub(crate) rec: &'a [u8],
    // Where the row begins in the table.
    pub(crate) place: usize,
    // Where its field begins in the record.
    pub(crate) at: usize,
    // How many bytes the field has.
    pub(crate) width: usize,
    // How many alternatives the row has.
    pub(crate) count: usize,
    ghost early: { place < 16899998 },
    ghost near: { at < 65536 },
    ghost wide: { width ≡ get_or table.now place 0 },
    ghost counted: { count ≡ get_or table.now (place + 1) 0 },
    ghost narrow: { width < 256 },
    ghost few: { count < 256 },
}

impl<'a> Row<'a> {
    pub(crate) fn read(table: &'a [u8], place: usize, rec: &'a [u8], at: usize) -> Row<'a>
        requires early { place < 16899998 }
        requires near { at < 65536 }
        ensures table { result.table.now ≡ table.now }
        ensures rec { result.rec.now ≡ rec.now }
        ensures place { result.place ≡ place }
        ensures at { result.at ≡ at }
    {
        Row {
            table,
            rec,
            place,
            at,
            width: byte_at(table, place) as usize,
            count: byte_at(table, place + 1) as usize,
        }
    }

    // Where the row behind it begins.
    pub(crate) fn end(&self) -> usize
        ensures { result ≡ self.now.place + 2 + self.now.count * (self.now.width + 2) }
    {
        self.place + 2 + self.count * (self.width + 2)
    }

    // Its field's first column, counted from 1.
    pub(crate) fn column(&self) -> usize
        ensures { result ≡ self.now.at + 1 }
    {
        self.at + 1
    }
}

// A row of a table by where it stands there, and where its field stands in a record.
#[derive(Clone, Copy)]
pub(crate) struct RowPlace {
    pub(crate) place: u16,
    pub(crate) at: u8,
}
