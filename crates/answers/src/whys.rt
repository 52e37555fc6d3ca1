// The lines of `why`: why each correction is taken; or a refusal, and what more is known of it. Assumes of its callers, all in this crate, that
// no more than 200 corrections are taken.
ghost use Rattle.std.specs.Prelude.{◌≡◌, ◌+◌, ◌≤◌, length, IfOk};
ghost use Rattle.answers.specs.Why.{reason_line, record_line, frozen_record, line_text, in_text, route_text, more_text, explained_lines, explained_text};
ghost use Rattle.answers.specs.Written.{Wrote};

use crate::pieces::{put_key, put_tabbed, put_word};
use crate::texts::put_no;
use applying::Fault;
use refusals::{MOST_RECORDS, Refusal};
use routes::{LINE_WIDTH, RECORD_WIDTH, Texts};
use selection::{Explained, Failure, line_in};

// Writes the line of a correction that is taken: wanted where none relies on it, else for the one that does, by the route of a record.
fn put_reason(correction: usize, relying: usize, rec: &[u8], out: &mut [u8], at: usize) -> usize
    requires { at ≤ 15400 }
    ensures { Wrote out.old out.new at (reason_line correction relying rec.now) result × (result ≤ at + 77) }
{
    let word = put_word(b"take", out, at);
    let number = put_tabbed(correction, out, word);
    if relying == 0 {
        return put_word(b"\twanted\n", out, number);
    }
    let whom = put_word(b"\tfor", out, number);
    let behind = put_tabbed(relying, out, whom);
    let tab = put_word(b"\t", out, behind);
    let key = put_key(rec, out, tab);
    put_word(b"\n", out, key)
}

// Writes a line for each correction that is taken.
fn put_reasons(texts: Texts<'_>, explained: Explained, out: &mut [u8]) -> usize
    requires { explained.count ≤ 200 }
    ensures { Wrote out.old out.new 0 (explained_lines texts.entry.frozen.now texts.entry.log.now explained explained.count) result }
{
    let count = explained.count;
    let mut end = 0;
    for i in 0..count {
        let taken = explained.taken[i] as usize;
        let relying = explained.relying[i] as usize;
        let rec = texts.record(explained.source[i]);
        end = put_reason(taken, relying, rec, out, end);
    }
    end
}

// Writes the line of a record; nothing where it is empty.
fn put_record(rec: &[u8], out: &mut [u8], at: usize) -> usize
    requires { (at ≤ 10000) × (length rec.now ≤ 132) }
    ensures { Wrote out.old out.new at (record_line rec.now) result }
{
    if rec.len() == 0 {
        return at;
    }
    let word = put_word(b"record\t", out, at);
    let bytes = put_word(rec, out, word);
    put_word(b"\n", out, bytes)
}

// The record of the frozen file that a refusal is about, as far as the file has it. Empty where it is about none.
fn frozen_record<'a>(frozen: &'a [u8], refusal: Refusal) -> &'a [u8]
    ensures { result.now ≡ frozen_record frozen.now refusal }
{
    let number = refusal.number;
    let place = refusal.place;
    if !((number < Refusal::LOG_LINE) & ((1 <= place) & (place <= MOST_RECORDS))) {
        return &frozen[0..0];
    }
    let start = (place - 1) * LINE_WIDTH;
    if frozen.len() <= start {
        return &frozen[0..0];
    }
    let end = (start + RECORD_WIDTH).min(frozen.len());
    &frozen[start..end]
}

// Writes the line of the log that can't be applied.
fn put_line(line: usize, out: &mut [u8], at: usize) -> usize
    requires { at ≤ 10000 }
    ensures { Wrote out.old out.new at (line_text line) result }
{
    let word = put_word(b"line", out, at);
    let number = put_tabbed(line, out, word);
    put_word(b"\n", out, number)
}

// Writes a refusal within a route, of which the first record is given.
fn put_inner(first: &[u8], inner: Refusal, out: &mut [u8], at: usize) -> usize
    requires { at ≤ 1000 }
    ensures { Wrote out.old out.new at (in_text first.now inner) result × (result ≤ at + 92) }
{
    let word = put_word(b"in\t", out, at);
    let key = put_key(first, out, word);
    let number = put_tabbed(inner.number as usize, out, key);
    let place = put_tabbed(inner.place, out, number);
    let column = put_tabbed(inner.column, out, place);
    put_word(b"\n", out, column)
}

// Writes the refused route, its own refusal, and the record that this is about.
fn put_route(texts: Texts<'_>, fault: Fault, out: &mut [u8], at: usize) -> usize
    requires { at ≤ 1000 }
    ensures { Wrote out.old out.new at (route_text texts.entry.frozen.now texts.entry.log.now fault) result }
{
    let Texts { frozen, log } = texts;
    let route = fault.route;
    let inner = fault.inner;
    let first = line_in(frozen, log, route, 1);
    let end = put_inner(first, inner, out, at);
    let rec = line_in(frozen, log, route, inner.place);
    put_record(rec, out, end)
}

// Writes what more is known of a refusal.
fn put_more(texts: Texts<'_>, failure: Failure, out: &mut [u8], at: usize) -> usize
    requires { at ≤ 1000 }
    ensures { Wrote out.old out.new at (more_text texts.entry.frozen.now texts.entry.log.now failure) result }
{
    let number = failure.refusal.number;
    if number == Refusal::DOES_NOT_APPLY {
        return put_line(failure.line, out, at);
    }
    if number == Refusal::ROUTE_REFUSED {
        let fault = failure.fault;
        return put_route(texts, fault, out, at);
    }
    let rec = frozen_record(texts.frozen, failure.refusal);
    put_record(rec, out, at)
}

// Writes why corrections are taken, or the refusal.
pub(crate) fn put_explained(
    texts: Texts<'_>,
    explained: Result<Explained, Failure>,
    out: &mut [u8],
) -> usize
    requires { IfOk explained (λ e. e.count ≤ 200) }
    ensures { Wrote out.old out.new 0 (explained_text texts.entry.frozen.now texts.entry.log.now explained) result }
{
    match explained {
        Ok(explained) => put_reasons(texts, explained, out),
        Err(failure) => {
            let end = put_no(failure.refusal, out);
            put_more(texts, failure, out, end)
        }
    }
}
