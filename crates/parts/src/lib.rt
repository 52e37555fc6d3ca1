// One record alone, read into its parts and written from them. Assumes nothing of the caller: a slice of any length and content is
// read or refused, any parts are written or refused, and a lent buffer of any length is filled to its last byte.
#![tactic(auto)]

ghost use Rattle.std.specs.Prelude.{◌≡◌, length, replicate};
ghost use Rattle.columns.specs.Kinds.{kind_of};
ghost use Rattle.refusals.specs.Table.{cut_short, Accepted, Refused};
ghost use Rattle.leg.specs.Judge.{stage};
ghost use Rattle.fields.specs.Leg.{render_leg};
ghost use Rattle.fields.specs.Continuation.{render_continuation};
ghost use Rattle.parts.specs.Record.{size_column, parts_by_kind, reading_of, RecordLeft};

use columns::Kind;
use fields::continuation::{Continuation, content_of};
use fields::primary::Leg;
use refusals::{Refusal, Verdict};

// What a record says: a leg, or a continuation and its 83 bytes.
#[derive(Clone, Copy, Debug, PartialEq, Eq)]
pub enum Parts {
    Leg(Leg),
    Continuation(Continuation, [u8; 83]),
}

// Refusal 1, unless the slice is 133 bytes of which the last is a line feed.
#[tactic(auto, unfolding(crate::specs::Record::size_column, leg::specs::Judge::stage))]
fn check_size(s: &[u8]) -> Verdict
    ensures { result ≡ stage (size_column s.now) (cut_short 1) Accepted }
{
    if s.len() < 133 {
        return Err(Refusal::cut_short(1, s.len() + 1));
    }
    if s[132] != b'\n' {
        return Err(Refusal::cut_short(1, 133));
    }
    if 133 < s.len() {
        return Err(Refusal::cut_short(1, 134));
    }
    Ok(())
}

// What a record that was accepted says.
fn parts_of(rec: &[u8]) -> Parts
    ensures { result ≡ parts_by_kind (kind_of rec.now) rec.now }
{
    match columns::kind_of(rec) {
        Kind::Primary => Parts::Leg(Leg::of(rec)),
        Kind::Continuation => Parts::Continuation(Continuation::of(rec), content_of(rec)),
    }
}

// Reads one record alone, 132 columns and a line feed: refusal 1, then 3, 4, 5, at place 1, 3 at the bad byte; or its parts.
#[tactic(auto, unfolding(crate::specs::Record::reading_of, crate::specs::Record::alone, leg::specs::Judge::stage))]
pub fn read(s: &[u8]) -> Result<Parts, Refusal>
    ensures { result ≡ reading_of s.now }
{
    check_size(s)?;
    let rec = &s[..132];
    leg::judge(rec, 1)?;
    Ok(parts_of(rec))
}

// Refuses, with every byte of the buffer 0.
fn refuse(r: Refusal, out: &mut [u8]) -> Verdict
    ensures { (result ≡ Refused r) × (out.new ≡ replicate (length out.old) 0) }
{
    slices::clear_from(out, 0);
    Err(r)
}

// Writes a record that was put together, with its line feed and zeros past it: 14 where fewer than 133 bytes are lent, then 3, 4, 5, at
// place 0, 3 with the first column of the field. On a refusal every byte is 0.
#[tactic(auto, unfolding(crate::specs::Record::writing, crate::specs::Record::written_by))]
fn finish(rec: [u8; 132], out: &mut [u8]) -> Verdict
    ensures { RecordLeft rec out.old result out.new }
{
    if out.len() < 133 {
        return refuse(Refusal::buffer_too_short(), out);
    }
    match leg::judge_parts(&rec, 0) {
        Ok(()) => {
            slices::copy(&rec, 0, out, 0, 132);
            slices::put_after(out, 132, 0, 10);
            slices::clear_from(out, 133);
            Ok(())
        }
        Err(r) => refuse(r, out),
    }
}

// Writes the record of a leg.
pub fn write_leg(leg: Leg, out: &mut [u8]) -> Verdict
    ensures { RecordLeft (render_leg leg) out.old result out.new }
{
    finish(leg.render(), out)
}

// Writes the record of a continuation and its 83 bytes.
pub fn write_continuation(continuation: Continuation, content: [u8; 83], out: &mut [u8]) -> Verdict
    ensures { RecordLeft (render_continuation continuation content) out.old result out.new }
{
    finish(continuation.render(content), out)
}
