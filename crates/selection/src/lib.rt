// Corrections carried into a frozen file: a log checked, the corrections picked that are wanted and those that they rely on, why each of
// them is taken, and the new file that they make. Assumes nothing of the caller: any frozen file, any log, any wanted numbers, any buffer.
//
// A pick goes over the log twice: once for its verdict, once with the corrections taken, which need not be judged again. A line is searched by
// halves, and a correction has the records of the routes that it names compared with those before them; what a line relies on is looked for
// backward, up to the last earlier line on its route. The reasons take one pass, and as many comparisons of two numbers as lines times
// corrections taken (docs/PERFORMANCE.md).
#![tactic(auto)]

mod carry;
mod choosing;
mod explaining;
mod file;
mod opening;
mod relied;

ghost use Rattle.std.specs.Prelude.{◌≡◌};
ghost use Rattle.selection.specs.Pick.{log_verdict, pick_of, FileMade, line_in, line_of_pick, picked_as};
ghost use Rattle.selection.specs.Failing.{failure_of, settled_of};
ghost use Rattle.selection.specs.Reasons.{reasons_of, reasons_as};

use applying::Fault;
use carry::refused_pick;
use corrections::MOST_CORRECTIONS;
use file::write_records;
use opening::Opened;
use refusals::{MOST_RECORDS, Refusal, Verdict};
use routes::{LONGEST_FILE, Sources, Texts, record_at};

// What a pick comes to. `count` is how many corrections are taken, `taken` their numbers in rising order, `records` where the records of the
// new file lie; zeros past each count, and nothing but zeros on a refusal. The verdict stands beside them, and not around them: `line_of` takes
// a pick whoever made it, also one that is refused and has sources.
#[derive(Clone, Copy)]
pub struct Picked {
    pub verdict: Verdict,
    pub count: usize,
    pub taken: [u32; MOST_CORRECTIONS],
    pub records: Sources,
}

// Where a log fails: the refusal, and what is wrong where it is 10 or 11. For 10 `line` is the line of the log that can't be applied, counted
// from 1, and `fault.at` the offset of its record; for 11 `fault` has the route that is refused, where its records lie, and its own refusal.
// Nothing but zeros otherwise.
#[derive(Clone, Copy)]
pub struct Failure {
    pub refusal: Refusal,
    pub line: usize,
    pub fault: Fault,
}

// Why corrections are taken. `count` is how many are, `taken` their numbers in rising order. Of each that is not wanted `relying` is the smallest
// correction taken that relies on it directly, and `source` where the record lies of the first line of that one whose route it was the last
// earlier correction to touch; both are 0 of one that is wanted. Zeros past the count.
#[derive(Clone, Copy)]
pub struct Explained {
    pub count: usize,
    pub taken: [u32; MOST_CORRECTIONS],
    pub relying: [u32; MOST_CORRECTIONS],
    pub source: [u32; MOST_CORRECTIONS],
}

// Checks a log against its frozen file, and says where it fails: 13 for the log's length, 2 and the rest of the file, the log's lines, then
// correction by correction 10 and 11.
pub fn failing<'a>(frozen: &'a [u8], log: &'a [u8]) -> Result<(), Failure>
    ensures { result ≡ failure_of frozen.now log.now }
{
    let opened = Opened::new(Texts { frozen, log })?;
    opened.whole()
}

// Checks a log against its frozen file: 13 for the log's length, 2 and the rest of the file, the log's lines, then correction by correction
// 10 and 11.
pub fn check_log<'a>(frozen: &'a [u8], log: &'a [u8]) -> Verdict
    ensures { result ≡ log_verdict frozen.now log.now }
{
    failing(frozen, log).map_err(|failure| failure.refusal)
}

// Picks the wanted corrections and those that they rely on, and no others: the log is checked as above, with 12 before 10 and 11.
pub fn pick<'a>(frozen: &'a [u8], log: &'a [u8], wanted: &[u32]) -> Picked
    ensures { result ≡ picked_as (pick_of frozen.now log.now wanted.now) }
{
    match Opened::new(Texts { frozen, log }) {
        Ok(opened) => opened.pick(wanted),
        Err(refusal) => refused_pick(refusal),
    }
}

// Says why each correction is taken that `pick` takes; or its refusal, with what is wrong.
pub fn reasons<'a>(frozen: &'a [u8], log: &'a [u8], wanted: &[u32]) -> Result<Explained, Failure>
    ensures { result ≡ reasons_as log.now (settled_of frozen.now log.now wanted.now)
        (reasons_of frozen.now log.now wanted.now) }
{
    let opened = Opened::new(Texts { frozen, log })?;
    opened.reasons(wanted)
}

// A pick with the new file's bytes in a buffer: 14 where fewer than 63,840 bytes are lent. Zeros past the file; on every refusal the whole
// buffer is 0.
pub fn new_file<'a>(frozen: &'a [u8], log: &'a [u8], wanted: &[u32], out: &mut [u8]) -> Picked
    ensures { FileMade frozen.now log.now wanted.now out.old out.new result }
{
    slices::clear(out);
    if out.len() < LONGEST_FILE {
        return refused_pick(Refusal::buffer_too_short());
    }
    let picked = pick(frozen, log, wanted);
    write_records(Texts { frozen, log }, &picked.records, out);
    picked
}

// The record at the nth of these sources, counted from 1, as a part of the frozen file or of the log. Empty for 0 and past the count, and
// where the source lies in neither slice.
pub fn line_in<'a>(frozen: &'a [u8], log: &'a [u8], records: Sources, n: usize) -> &'a [u8]
    ensures { result.now ≡ line_in frozen.now log.now records n }
{
    if n == 0 {
        return &[];
    }
    let in_use = &records.at[..records.count.min(MOST_RECORDS)];
    match in_use.get(n - 1) {
        Some(source) => record_at(frozen, log, *source),
        None => &[],
    }
}

// The record of line n of a pick's new file, as a part of the frozen file or of the log. Empty for line 0, for a line past the end, and where
// the pick is refused, whoever made it. It takes the sources at their word: one that lies in neither slice gives an empty part.
pub fn line_of<'a>(frozen: &'a [u8], log: &'a [u8], picked: Picked, n: usize) -> &'a [u8]
    ensures { result.now ≡ line_of_pick frozen.now log.now picked n }
{
    match picked.verdict {
        Ok(()) => line_in(frozen, log, picked.records, n),
        Err(_) => &[],
    }
}

// The record of line n of the new file, as a part of the frozen file or of the log. Empty for line 0, for a line past the end, and where the
// pick is refused.
pub fn line<'a>(frozen: &'a [u8], log: &'a [u8], wanted: &[u32], n: usize) -> &'a [u8]
    ensures { result.now ≡ line_of_pick frozen.now log.now (picked_as (pick_of frozen.now log.now wanted.now)) n }
{
    line_of(frozen, log, pick(frozen, log, wanted), n)
}
