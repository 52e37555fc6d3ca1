// Files and routes: records judged in sequence. A record is given by its source, the place of its 132 bytes in one of two slices, so a
// file and a route of corrected records are judged by one walk. Assumes nothing of the caller: any slices, any sources.
#![tactic(auto)]

mod ahead;
mod glance;
pub mod known;
mod pairs;
mod record;
mod stages;
mod texts;

ghost use Rattle.std.specs.Prelude.{◌≡◌, ◌≤◌, length, take, drop};
ghost use Rattle.routes.specs.Known.{walk_knowing, walked_knowing};
ghost use Rattle.routes.specs.Sources.{log_source, record_at, records_at, sources_in, records_in, sources_to, records, sources_of};
ghost use Rattle.routes.specs.Stages.{nothing};
ghost use Rattle.routes.specs.Walk.{finished, walked};
ghost use Rattle.routes.specs.Files.{tail_stage, file_verdict};

use ahead::ends_route;
use known::{NOTHING_KNOWN, knows};
use refusals::{MOST_RECORDS, Refusal, Verdict};
use stages::{Seen, awaits};
pub use texts::Texts;

// Where the key of a route ends, and the head that a continuation shares with its primary; the column of the continuation number.
const KEY: usize = 25;

const HEAD: usize = 38;

const NUMBER: usize = 39;

// How many bytes a record has, how many with its line feed, and how many a file has at most.
pub const RECORD_WIDTH: usize = 132;

pub const LINE_WIDTH: usize = RECORD_WIDTH + 1;

pub const LONGEST_FILE: usize = MOST_RECORDS * LINE_WIDTH;

// From this number on a source is one of the log; below it, one of the frozen file.
const FIRST_OF_LOG: u32 = 1000000;

// Where records lie, at most 480 of them; zeros past the count. The count stays beside the array, since this is public: callers fill it with
// anything, tests read the zeros, and there is no heap to lend a slice from.
#[derive(Clone, Copy, Debug, PartialEq, Eq)]
pub struct Sources {
    pub count: usize,
    pub at: [u32; MOST_RECORDS],
}

impl Sources {
    // Those that count from one on up to another, where they count from 0.
    fn range(&self, from: usize, to: usize) -> &[u32]
        ensures { result.now ≡ sources_in self.now from to }
    {
        let end = to.min(self.count.min(MOST_RECORDS));
        self.at.get(from..end).unwrap_or(&[])
    }
}

// The source of the record at an offset of the log. Every record of a log, which has at most 60,000 bytes, lies at an offset that is a u16.
pub fn log_source(at: u16) -> u32
    ensures { result ≡ log_source at }
{
    FIRST_OF_LOG + at as u32
}

// The record of a source: below 1,000,000 the 132 bytes at that offset of the frozen file, else those at the rest of the log. Empty where
// they do not lie wholly within.
pub fn record_at<'a>(frozen: &'a [u8], log: &'a [u8], source: u32) -> &'a [u8]
    ensures { result.now ≡ record_at frozen.now log.now source }
{
    if source < FIRST_OF_LOG {
        record::within(frozen, source)
    } else {
        record::within(log, source - FIRST_OF_LOG)
    }
}

// How many records a file has: its leading pieces of 133 bytes that end in a line feed, at most 480.
fn count_records(file: &[u8]) -> usize
    ensures { (result ≡ length (records file.now)) × (result ≤ 480) }
{
    for i in 0..MOST_RECORDS {
        if slices::byte_at(file, i * LINE_WIDTH + RECORD_WIDTH) != b'\n' {
            return i;
        }
    }
    MOST_RECORDS
}

// The sources of the first n pieces of a file.
fn sources_to(n: usize) -> Sources
    requires { n ≤ 480 }
    ensures { result ≡ sources_to n }
{
    let mut at = [0; MOST_RECORDS];
    for i in 0..n {
        at[i] = (i * LINE_WIDTH) as u32;
    }
    Sources { count: n, at }
}

// The sources of a file's own records: the leading ones that end in a line feed.
pub fn sources_of(file: &[u8]) -> Sources
    ensures { result ≡ sources_of file.now }
{
    sources_to(count_records(file))
}

// Judges the records of the first n of some sources in sequence, counted from 1. Those of the others are looked at, and not judged.
// Records that a table knows are not judged by themselves.
fn walk<'a>(texts: Texts<'a>, known: &[u32], sources: &[u32], n: usize) -> Verdict
    requires { n ≤ length sources.now }
    ensures { result
        ≡ walk_knowing known.now texts.entry.frozen.now texts.entry.log.now (records_at texts.entry.frozen.now texts.entry.log.now (drop n sources.now))
        nothing 1 (take n sources.now) }
{
    let mut seen = Seen {
        primary: &[],
        before: &[],
    };
    for (i, &source) in sources[..n].iter().enumerate() {
        let rec = texts.record(source);
        let last = ends_route(texts, &sources[i + 1..], rec);
        seen.judge_next(knows(known, source), rec, i + 1, last)?;
        seen = seen.after(rec);
    }
    Ok(())
}

// Whether a continuation is missing past the last record of some sources.
#[tactic(auto, unfolding(crate::specs::Walk::finished, crate::specs::Walk::last, crate::specs::Stages::awaits))]
fn finish<'a>(texts: Texts<'a>, sources: &[u32]) -> Verdict
    ensures { result ≡ finished (records_at texts.entry.frozen.now texts.entry.log.now sources.now) }
{
    let Some(&source) = sources.last() else {
        return Ok(());
    };
    if awaits(texts.record(source)) {
        return Err(Refusal::continuation_number(sources.len() + 1));
    }
    Ok(())
}

// Judges the records of a range of sources, a route of them for example, in sequence and counted from its start. The range counts from
// 0, `to` is past its last, and what is past the sources that count is cut off. A record that the table knows is taken to be legal by itself:
// where what the table knows is so, this is `judge_range`, at the cost of comparing alone; and where all is seen at a glance to stand, at that of
// comparing each with the one before it.
pub fn judge_known<'a>(
    frozen: &'a [u8],
    log: &'a [u8],
    known: &[u32],
    sources: Sources,
    from: usize,
    to: usize,
) -> Verdict
    ensures { result ≡ walked_knowing known.now frozen.now log.now (sources_in sources from to) }
{
    let texts = Texts { frozen, log };
    let range = sources.range(from, to);
    if glance::stand(texts, known, range) {
        return Ok(());
    }
    walk(texts, known, range, range.len())?;
    finish(texts, range)
}

// The same with nothing known: every record is judged by itself.
pub fn judge_range<'a>(
    frozen: &'a [u8],
    log: &'a [u8],
    sources: Sources,
    from: usize,
    to: usize,
) -> Verdict
    ensures { result ≡ walked (records_in frozen.now log.now sources from to) }
{
    judge_known(frozen, log, &NOTHING_KNOWN, sources, from, to)
}

// What stands behind the n leading records of a file, each of 133 bytes: nothing, or a record that is cut short.
#[tactic(auto, using(crate::proofs::FileLaws::tail_none, crate::proofs::FileLaws::tail_some))]
fn judge_tail(file: &[u8], n: usize) -> Verdict
    requires { n ≤ 480 }
    ensures { result ≡ tail_stage (length file.now) n }
{
    match file.len().saturating_sub(n * LINE_WIDTH) {
        0 => Ok(()),
        tail => Err(Refusal::cut_short(n + 1, LINE_WIDTH.min(tail + 1))),
    }
}

// Judges a file: 2 for its size; then record by record 1, 3, 4, 5, 6, 7, 8; a continuation that is missing past the last record. A piece of
// 133 bytes behind the records, which does not end in a line feed, is looked at for the last leg of a route.
#[tactic(auto, using(crate::proofs::FileLaws::too_long_lem))]
pub fn check(file: &[u8]) -> Verdict
    ensures { result ≡ file_verdict file.now }
{
    if LONGEST_FILE < file.len() {
        return Err(Refusal::too_many_records());
    }
    let count = count_records(file);
    let whole = file.len() / LINE_WIDTH;
    let pieces = sources_to(whole);
    let texts = Texts {
        frozen: file,
        log: file,
    };
    walk(texts, &NOTHING_KNOWN, &pieces.at[..whole], count)?;
    judge_tail(file, count)?;
    finish(texts, &pieces.at[..count])
}
