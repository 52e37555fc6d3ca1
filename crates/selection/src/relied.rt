// Which corrections another one relies on: those wanted, and with each the last earlier correction on every route that it touches.
// `source` and `relied_on` assume of their callers that an index has a place for the line; the rest assumes nothing.
//
// A line is compared, in 25 bytes, with the lines of earlier corrections before it, back to the first on its route: at most every two lines once.
// Every correction that is taken is gone into once, and of its own lines each is looked at.
ghost use Rattle.std.specs.Prelude.{◌≡◌, ◌++◌, ◌-◌, ◌<◌, length, replicate, MatchOption};
ghost use Rattle.std.specs.Option.{unwrap_or};
ghost use Rattle.applying.specs.Apply.{entry_at, source_of};
ghost use Rattle.selection.specs.Reliance.{owners, relied_by, reliances, named_by, Spans, Marked, Taken};

use crate::opening::Opened;
use corrections::{Entry, MOST_CHANGES, MOST_CORRECTIONS};
use routes::log_source;
use slices::same;

// How many bytes of a record say its route.
const ROUTE: usize = 25;

// How many bytes marks have: one for each correction, and one for 0, which is none.
pub(crate) const MARKS: usize = MOST_CORRECTIONS + 1;

impl Opened<'_> {
    // Where the record of line k lies.
    pub(crate) fn source(&self, k: usize) -> u32
        requires { k < 444 }
        ensures { result ≡ source_of (entry_at self.now.index k) }
    {
        log_source(self.index.entries[k].at as u16)
    }

    // The last correction before that of line k which has a line on the same route, if there is one. The lines are gone through backward
    // from k, and the first that counts has the answer.
    fn relied_on(&self, k: usize) -> Option<u32>
        requires { k < 444 }
        ensures { unwrap_or result 0 ≡ relied_by self.now.texts.frozen.now self.now.texts.log.now self.now.index k }
    {
        let own = self.index.entries[k].correction;
        let record = self.texts.record(self.source(k));
        for j in (0..k).rev() {
            let earlier = self.index.entries[j].correction;
            if earlier < own {
                let other = self.texts.record(self.source(j));
                if same(record, 0, other, 0, ROUTE) {
                    return Some(earlier);
                }
            }
        }
        None
    }

    // What each line relies on, in the order of the index: 0, which is no correction, where it relies on none, as in `last_on` of the theory;
    // zeros past its lines.
    pub(crate) fn reliances(&self) -> [u32; MOST_CHANGES]
        ensures { result ≡ reliances self.now.texts.frozen.now self.now.texts.log.now self.now.index 0 self.now.index.count
            ++ replicate (444 - self.now.index.count) 0 }
    {
        let mut relied = [0; MOST_CHANGES];
        for k in 0..self.index.count {
            relied[k] = self.relied_on(k).unwrap_or(0);
        }
        relied
    }
}

// Where the lines of a correction stand: none before `first`, none at `end` or behind it.
#[derive(Clone, Copy, Debug, PartialEq, Eq)]
struct Span {
    first: usize,
    end: usize,
}

// The spans of all corrections that can be marked.
fn spans_of(entries: &[Entry]) -> [Span; MARKS]
    ensures { Spans (owners entries.now) result }
{
    let mut spans = [Span { first: 0, end: 0 }; MARKS];
    for (k, entry) in entries.iter().enumerate() {
        let c = entry.correction as usize;
        if c < MARKS {
            let first = if spans[c].end == 0 { k } else { spans[c].first };
            spans[c] = Span { first, end: k + 1 };
        }
    }
    spans
}

// The lines of a log, and what each relies on; and where those of each correction stand.
#[derive(Clone, Copy)]
struct Lines<'a> {
    entries: &'a [Entry],
    relied: &'a [u32],
    spans: &'a [Span; MARKS],
    ghost spanned: { Spans (owners entries.now) spans.now },
}

impl Lines<'_> {
    // The correction that line k names, if that is a line of correction c, and it is smaller.
    fn named(self, c: usize, k: usize) -> Option<usize>
        ensures { MatchOption result (named_by (owners self.entry.entries.now) self.entry.relied.now c k ≡ 0)
            (λ p. (0 < p) × (p ≡ named_by (owners self.entry.entries.now) self.entry.relied.now c k)) }
    {
        let owner = self.entries.get(k)?.correction as usize;
        let p = *self.relied.get(k)? as usize;
        if (owner == c) & (p < c) & (0 < p) {
            Some(p)
        } else {
            None
        }
    }

    // Marks correction c and all that it relies on, by recursion to smaller numbers. The mark of c comes last, so that at each call what a
    // marked correction relies on is marked already, and a marked correction need not be gone into again. Where the lines of one correction
    // stand together, as a log has them, no line of another is looked at.
    fn mark(self, marks: &mut [u8; MARKS], c: usize)
        ensures { Marked (owners self.entry.entries.now) self.entry.relied.now marks.old marks.new c }
    {
        if c == 0 {
            return;
        }
        if MARKS <= c {
            return;
        }
        if marks[c] == 1 {
            return;
        }
        let span = self.spans[c];
        for k in (span.first..span.end).rev() {
            if let Some(p) = self.named(c, k) {
                self.mark(marks, p);
            }
        }
        marks[c] = 1;
    }
}

// The marks of the wanted corrections and of all that they rely on, one byte for each number from 0 on.
pub(crate) fn taken(entries: &[Entry], relied: &[u32], wanted: &[u32]) -> [u8; MARKS]
    ensures { Taken (owners entries.now) relied.now wanted.now result (length wanted.now) }
{
    let lines = Lines {
        entries,
        relied,
        spans: &spans_of(entries),
    };
    let mut marks = [0; MARKS];
    for c in wanted {
        lines.mark(&mut marks, *c as usize);
    }
    marks
}
