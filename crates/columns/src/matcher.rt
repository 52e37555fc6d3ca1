// The matcher: holds a record to whatever table it is lent. A table's form is that of specs/Table.antt; a byte past its end reads as 0.
// Assumes of its callers in this file the small bounds that each `requires` names; `first_wrong` and `rows_right` assume nothing.
ghost use Rattle.std.specs.Prelude.{◌≡◌, true, false, ◌<◌, ◌≤◌, get_or};
ghost use Rattle.columns.specs.ByteSets.{fits};
ghost use Rattle.columns.specs.Patterns.{fits_all};
ghost use Rattle.columns.specs.Rows.{stands, alternative_ok, row_ok};
ghost use Rattle.columns.specs.Stops.{run, run_of, longest, stop_of};
ghost use Rattle.columns.specs.Table.{decode};
ghost use Rattle.columns.specs.Found.{row_of, alternative_of, letters_of, field_of, FirstWrong};
ghost use Rattle.columns.specs.Quick.{rows_right};

use crate::byte_sets::in_set;
use crate::row::{Row, RowPlace};
use slices::{byte_after, byte_at};

// Whether the record's column holds a byte that fits the letter c. Column 0 stands for no column, and holds whatever is asked.
#[tactic(auto, unfolding(crate::specs::Rows::stands))]
fn guard_stands(rec: &[u8], column: u8, c: u8) -> bool
    ensures { result ≡ stands column c rec.now }
{
    if column == 0 {
        return true;
    }
    in_set(c, byte_at(rec, (column - 1) as usize))
}

// Whether a pattern of w letters that begins with c may fit a field that begins with b: a letter that stands for itself has to be that byte.
#[tactic(auto, using(crate::proofs::Turns::plain_first))]
fn may_fit(c: u8, b: u8, w: usize) -> bool
    ensures { result ≡ false → (1 ≤ w) × (fits c b ≡ false) }
{
    (w == 0) | ((b'a' <= c) | (b == c))
}

impl<'a> Row<'a> {
    // How many of the field's bytes fit the letters of the pattern at p.
    #[tactic(auto, using(crate::proofs::Turns::run_start, crate::proofs::Turns::run_go, crate::proofs::Turns::run_stop, crate::proofs::Turns::run_end))]
    fn run_of_pattern(&self, p: usize) -> usize
        ensures { result ≡ run (letters_of self.now p) (field_of self.now) }
    {
        for k in 0..self.width {
            if !in_set(
                byte_after(self.table, p, k),
                byte_after(self.rec, self.at, k),
            ) {
                return k;
            }
        }
        self.width
    }

    // Whether all letters of the pattern at p fit the field's bytes. Many fields have one column only.
    #[tactic(auto, using(crate::proofs::Turns::fits_one, crate::proofs::Turns::run_all))]
    fn fits_pattern(&self, p: usize) -> bool
        ensures { result ≡ fits_all (letters_of self.now p) (field_of self.now) }
    {
        if self.width == 1 {
            return in_set(byte_at(self.table, p), byte_at(self.rec, self.at));
        }
        self.run_of_pattern(p) == self.width
    }

    // Whether the alternative at p stands and fits the field, of which the first byte is b. Most that do not fit fail at their first letter, so that
    // is looked at before all else.
    #[tactic(auto, using(crate::proofs::Turns::first_fails, crate::proofs::Turns::pattern_failed))]
    fn fits_alternative(&self, b: u8, p: usize) -> bool
        requires { (p < 33554432) × (b ≡ get_or self.now.rec.now self.now.at 0) }
        ensures { result ≡ alternative_ok (alternative_of self.now p) self.now.rec.now (field_of self.now) }
    {
        if !may_fit(byte_at(self.table, p + 2), b, self.width) {
            return false;
        }
        guard_stands(self.rec, byte_at(self.table, p), byte_at(self.table, p + 1))
            && self.fits_pattern(p + 2)
    }

    // Whether one of its alternatives stands and fits the field.
    #[tactic(auto, using(crate::proofs::Turns::alternatives_start, crate::proofs::Turns::alternatives_go, crate::proofs::Turns::alternatives_found, crate::proofs::Turns::alternatives_end))]
    pub(crate) fn fits(&self) -> bool
        ensures { result ≡ row_ok (row_of self.now) self.now.rec.now }
    {
        let b = byte_at(self.rec, self.at);
        let mut p = self.place + 2;
        for _ in 0..self.count {
            if self.fits_alternative(b, p) {
                return true;
            }
            p += 2 + self.width;
        }
        false
    }

    // How many of the field's bytes fit the alternative at p; none where it does not stand.
    fn run_of_alternative(&self, p: usize) -> usize
        requires { p < 33554432 }
        ensures { result ≡ run_of (alternative_of self.now p) self.now.rec.now (field_of self.now) }
    {
        if guard_stands(self.rec, byte_at(self.table, p), byte_at(self.table, p + 1)) {
            self.run_of_pattern(p + 2)
        } else {
            0
        }
    }

    // The most of the field's bytes that one of its alternatives takes.
    #[tactic(auto, using(crate::proofs::Turns::longest_start, crate::proofs::Turns::longest_go, crate::proofs::Turns::longest_end))]
    fn longest_run(&self) -> usize
        ensures { result ≡ longest (row_of self.now).alternatives self.now.rec.now (field_of self.now) }
    {
        let mut best = 0;
        let mut p = self.place + 2;
        for _ in 0..self.count {
            best = best.max(self.run_of_alternative(p));
            p += 2 + self.width;
        }
        best
    }

    // The first column up to which the field begins nothing that the row allows.
    #[tactic(auto, using(crate::proofs::Turns::stop_at, crate::proofs::Turns::longest_fits))]
    pub(crate) fn stop(&self) -> usize
        ensures { result ≡ stop_of (row_of self.now) self.now.rec.now }
    {
        self.at + 1 + self.longest_run()
    }
}

// The leftmost row of the table that the record does not fit.
#[tactic(auto, using(crate::proofs::Turns::rows_start, crate::proofs::Turns::rows_go, crate::proofs::Turns::rows_bad, crate::proofs::Turns::rows_end, crate::proofs::Turns::small))]
pub(crate) fn first_wrong<'a>(table: &'a [u8], rec: &'a [u8]) -> Option<Row<'a>>
    ensures { FirstWrong (decode table.now) rec.now result }
{
    let mut place = 1;
    let mut at = 0;
    let rows = byte_at(table, 0);
    for _ in 0..rows {
        let row = Row::read(table, place, rec, at);
        if !row.fits() {
            return Some(row);
        }
        place = row.end();
        at += row.width;
    }
    None
}

// Whether the rows of the table at these places are all right.
pub(crate) fn rows_right<'a>(table: &'a [u8], places: &'a [RowPlace], rec: &'a [u8]) -> bool
    ensures { result ≡ rows_right table.now places.now rec.now }
{
    places.iter().all(|row| Row::read(table, row.place as usize, rec, row.at as usize).fits())
}
