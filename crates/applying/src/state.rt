// The state of a file under corrections: the sources of its records, in rising order of place, which a change puts in and takes out.
//
// A place is searched by halves where places rise, in at most ten comparisons of 29 bytes, and otherwise in turn.
ghost use Rattle.std.specs.Prelude.{◌≡◌, true, not, map, ◌≤◌, length, drop, take, is_some, IfSome};
ghost use Rattle.slices.specs.Order.{order};
ghost use Rattle.routes.specs.Known.{Known};
ghost use Rattle.routes.specs.Places.{place_of, Rising};
ghost use Rattle.routes.specs.Sources.{record_at, in_use, sources_for};
ghost use Rattle.routes.specs.Walk.{walked};
ghost use Rattle.applying.specs.Apply.{same_route};
ghost use Rattle.applying.specs.State.{
  not_before,
  count_before,
  has_place,
  is_record,
  with_source,
  without_record,
  InOrder,
  Gives,
};

use refusals::{MOST_RECORDS, Verdict};
use routes::{RECORD_WIDTH, Sources, Texts, judge_known, judge_range};
use slices::{compare, same};
use std::cmp::Ordering;
use std::marker::Model;

// The state of a file: no more than 480 sources, whether their places rise, and where routes are judged a table of the records that are
// known to be legal.
#[derive(Drop)]
pub(crate) struct State<'a> {
    texts: Texts<'a>,
    known: Option<&'a [u32]>,
    rising: bool,
    sources: Sources,
}

impl<'a> Model for State<'a> {
    ghost use Rattle.std.specs.Prelude.{◌≡◌, ◌≤◌, length, is_some, IfSome};
    ghost use Rattle.routes.specs.Known.{Known};
    ghost use Rattle.routes.specs.Sources.{in_use};
    ghost use Rattle.applying.specs.State.{InOrder, Standing};

    ghost Value = { Standing };

    ghost view = { λ s. record {
      frozen = s.texts.frozen.now;
      log = s.texts.log.now;
      judging = is_some s.known;
      sources = in_use s.sources;
    } };

    ghost invariant = { λ s. (s.sources.count ≤ 480) × (length s.sources.at ≡ 480)
        × InOrder s.texts.frozen.now s.texts.log.now s.rising (in_use s.sources)
        × IfSome s.known (λ k. Known s.texts.frozen.now s.texts.log.now k.now) };
}

// How the places of two records stand to each other: columns 1-25, then 27-29 and 39.
fn place_order(a: &[u8], b: &[u8]) -> Ordering
    ensures { result ≡ order (place_of a.now) (place_of b.now) }
{
    compare(a, 0, b, 0, 25)
        .then_with(|| compare(a, 26, b, 26, 3))
        .then_with(|| compare(a, 38, b, 38, 1))
}

// Whether the record of a source does not stand before another.
fn not_before<'a>(texts: Texts<'a>, source: u32, rec: &[u8]) -> bool
    ensures { result ≡ not_before texts.entry.frozen.now texts.entry.log.now rec.now source }
{
    place_order(texts.record(source), rec).is_ge()
}

// Whether the places of some sources rise. Asked once; every change of a state keeps it so.
fn rises<'a>(texts: Texts<'a>, sources: &[u32]) -> bool
    ensures { InOrder texts.entry.frozen.now texts.entry.log.now result sources.now }
{
    for i in 1..sources.len() {
        if not_before(texts, sources[i - 1], texts.record(sources[i])) {
            return false;
        }
    }
    true
}

// How many records stand before one, among any.
fn count_in_turn<'a>(texts: Texts<'a>, sources: &[u32], rec: &[u8]) -> usize
    ensures { result ≡ count_before texts.entry.frozen.now texts.entry.log.now rec.now sources.now }
{
    sources
        .iter()
        .position(|source| not_before(texts, *source, rec))
        .unwrap_or(sources.len())
}

// The same where places rise.
fn count_by_halves<'a>(texts: Texts<'a>, sources: &[u32], rec: &[u8]) -> usize
    requires { Rising (map place_of (map (record_at texts.frozen.now texts.log.now) sources.now)) }
    ensures { result ≡ count_before texts.entry.frozen.now texts.entry.log.now rec.now sources.now }
{
    sources.partition_point(|source| !not_before(texts, *source, rec))
}

// Some sources by themselves, with zeros past them.
pub(crate) fn listed(sources: &[u32]) -> Sources
    requires { length sources.now ≤ 480 }
    ensures { result ≡ sources_for sources.now }
{
    let mut at = [0u32; MOST_RECORDS];
    at[..sources.len()].copy_from_slice(sources);
    Sources {
        count: sources.len(),
        at,
    }
}

impl<'a> State<'a> {
    // The state of some sources.
    pub(crate) fn new(texts: Texts<'a>, known: Option<&'a [u32]>, sources: Sources) -> Self
        requires { (sources.count ≤ 480) × IfSome known (λ k. Known texts.frozen.now texts.log.now k.now) }
        ensures { result ≡ record {
          frozen = texts.entry.frozen.now;
          log = texts.entry.log.now;
          judging = is_some known.entry;
          sources = in_use sources;
        } }
    {
        let rising = rises(texts, &sources.at[..sources.count]);
        State {
            texts,
            known,
            rising,
            sources,
        }
    }

    // The sources that count.
    pub(crate) fn sources(&self) -> &[u32]
        ensures sources { result.now ≡ self.now.sources }
        ensures few { length self.now.sources ≤ 480 }
    {
        &self.sources.at[..self.sources.count]
    }

    // Whether it is known that their places rise.
    pub(crate) fn rises(&self) -> bool
        ensures { InOrder self.now.frozen self.now.log result self.now.sources }
    {
        self.rising
    }

    // Whether the routes that a correction names are judged.
    pub(crate) fn judges(&self) -> bool
        ensures { result ≡ self.now.judging }
    {
        self.known.is_some()
    }

    // The record of a source.
    pub(crate) fn record(&self, source: u32) -> &'a [u8]
        ensures { result.now ≡ record_at self.now.frozen self.now.log source }
    {
        self.texts.record(source)
    }

    // Whether the records of two sources are of one route.
    pub(crate) fn same_route(&self, a: u32, b: u32) -> bool
        ensures { result ≡ same_route self.now.frozen self.now.log a b }
    {
        crate::same_route(self.texts.frozen, self.texts.log, a, b)
    }

    // Judges the records of the sources from one on up to another, as those of a route.
    pub(crate) fn judge(&self, from: usize, to: usize) -> Verdict
        ensures { result ≡ walked (map (record_at self.now.frozen self.now.log) (drop from (take to self.now.sources))) }
    {
        match self.known {
            Some(known) => judge_known(
                self.texts.frozen,
                self.texts.log,
                known,
                self.sources,
                from,
                to,
            ),
            None => judge_range(self.texts.frozen, self.texts.log, self.sources, from, to),
        }
    }

    // How many records stand before one.
    pub(crate) fn count_before(&self, rec: &[u8]) -> usize
        ensures { result ≡ count_before self.now.frozen self.now.log rec.now self.now.sources }
    {
        if self.rising {
            return count_by_halves(self.texts, self.sources(), rec);
        }
        count_in_turn(self.texts, self.sources(), rec)
    }

    // Whether there is a record at i, and it has the place of another.
    fn has_place(&self, i: usize, rec: &[u8]) -> bool
        ensures { result ≡ has_place self.now.frozen self.now.log rec.now (drop i self.now.sources) }
    {
        match self.sources().get(i) {
            Some(source) => place_order(self.record(*source), rec).is_eq(),
            None => false,
        }
    }

    // Whether there is a record at i, and it is another byte for byte.
    fn is_record(&self, i: usize, rec: &[u8]) -> bool
        ensures { result ≡ is_record self.now.frozen self.now.log rec.now (drop i self.now.sources) }
    {
        match self.sources().get(i) {
            Some(source) => same(self.record(*source), 0, rec, 0, RECORD_WIDTH),
            None => false,
        }
    }

    // Puts a source in by its record's place, and says whether it could: not where that place is taken, or the state is full.
    pub(crate) fn put_in(&mut self, source: u32) -> bool
        ensures { Gives self.old (with_source self.old.frozen self.old.log source self.old.sources) result self.new }
    {
        let rec = self.record(source);
        let i = self.count_before(rec);
        let count = self.sources.count;
        if MOST_RECORDS <= count {
            return false;
        }
        if self.has_place(i, rec) {
            return false;
        }
        self.sources.at.copy_within(i..count, i + 1);
        self.sources.at[i] = source;
        self.sources.count = count + 1;
        true
    }

    // Takes a record out, and says whether it could: not where it does not stand in the state, byte for byte.
    pub(crate) fn take_out(&mut self, rec: &[u8]) -> bool
        ensures { Gives self.old (without_record self.old.frozen self.old.log rec.now self.old.sources) result self.new }
    {
        let i = self.count_before(rec);
        if !self.is_record(i, rec) {
            return false;
        }
        let count = self.sources.count;
        self.sources.at.copy_within(i + 1..count, i);
        self.sources.count = count - 1;
        true
    }
}
