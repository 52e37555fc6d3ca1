// The exact bytes that the programs print: what a pick comes to, the new file, whether a log stands, and why.
// Assumes nothing of the caller: any frozen file, any log, any list of wanted numbers, any buffer.
#![tactic(auto)]

mod pieces;
mod texts;
mod whys;

ghost use Rattle.std.specs.Prelude.{◌≡◌, length, replicate, MatchResult};
ghost use Rattle.columns.specs.Patterns.{codes};
ghost use Rattle.answers.specs.Answers.{pick_answer, newfile_answer, check_answer, too_short, Leaves, no_line, count_line};
ghost use Rattle.answers.specs.Why.{why_answer};

use corrections::{LONGEST_LOG, MOST_CORRECTIONS};
use refusals::Refusal;
use routes::{LINE_WIDTH, Texts};
use texts::{put_counts, put_no, put_picked};
use whys::put_explained;

// No answer of `pick_answer` is longer: 13 bytes of counts, and 9 for each of 200 corrections.
pub const LONGEST_PICK: usize = 13 + 9 * MOST_CORRECTIONS;

// No new file is longer.
pub const LONGEST_FILE: usize = routes::LONGEST_FILE;

// No answer of `why_answer` is longer: 43 bytes for each of 200 corrections.
pub const LONGEST_WHY: usize = 43 * MOST_CORRECTIONS;

// No line of a refusal is longer, whatever its numbers, and no two counts are.
pub const LONGEST_CHECK: usize = 66;

// As much as the programs read of frozen.txt, log.txt and want.txt: one byte past the limit, so that a file that is too long is seen to be.
pub const FROZEN_READ: usize = LONGEST_FILE + 1;

pub const LOG_READ: usize = LONGEST_LOG + 1;

pub const WANT_READ: usize = 4 * MOST_CORRECTIONS + 1;

// How many bytes an answer has; the line of a refusal is written as any other. Where fewer bytes are lent than the longest answer needs, it is
// refused by 14, and the buffer is nothing but zeros.
pub type Answer = Result<usize, Refusal>;

// The answer where too little is lent: every byte of the buffer is made 0.
fn too_short(out: &mut [u8]) -> Answer
    ensures { (result ≡ too_short) × (out.new ≡ replicate (length out.old) 0) }
{
    slices::clear(out);
    Err(Refusal::buffer_too_short())
}

// What `pick` prints: the corrections taken, or the refusal. Zeros past it.
pub fn pick_answer<'a>(frozen: &'a [u8], log: &'a [u8], want: &[u8], out: &mut [u8]) -> Answer
    ensures { Leaves 1813 out.old out.new (pick_answer frozen.now log.now want.now) result }
{
    if out.len() < LONGEST_PICK {
        return too_short(out);
    }
    let wanted = wanted::numbers(want);
    let picked = selection::pick(frozen, log, &wanted.at[..wanted.count]);
    slices::clear(out);
    Ok(put_picked(picked, out))
}

// What `newfile` prints: the new file, or the refusal. Zeros past it.
pub fn newfile_answer<'a>(frozen: &'a [u8], log: &'a [u8], want: &[u8], out: &mut [u8]) -> Answer
    ensures { Leaves 63840 out.old out.new (newfile_answer frozen.now log.now want.now) result }
{
    if out.len() < LONGEST_FILE {
        return too_short(out);
    }
    let wanted = wanted::numbers(want);
    let picked = selection::new_file(frozen, log, &wanted.at[..wanted.count], out);
    match picked.verdict {
        Ok(()) => Ok(picked.records.count * LINE_WIDTH),
        Err(r) => Ok(put_no(r, out)),
    }
}

// How many frozen records and how many corrections there are, or the refusal.
fn counts<'a>(frozen: &'a [u8], log: &'a [u8]) -> Result<(usize, usize), Refusal>
    ensures { MatchResult result (λ n. count_line (codes "ok") n.0 n.1 ≡ check_answer frozen.now log.now)
        (λ r. no_line r ≡ check_answer frozen.now log.now) }
{
    selection::check_log(frozen, log)?;
    let records = routes::sources_of(frozen).count;
    let index = corrections::index_of(log, records)?;
    Ok((records, index.corrections))
}

// What `check` prints: how many frozen records and how many corrections there are, or the refusal. Zeros past it.
pub fn check_answer<'a>(frozen: &'a [u8], log: &'a [u8], out: &mut [u8]) -> Answer
    ensures { Leaves 66 out.old out.new (check_answer frozen.now log.now) result }
{
    if out.len() < LONGEST_CHECK {
        return too_short(out);
    }
    slices::clear(out);
    match counts(frozen, log) {
        Ok((records, corrections)) => { Ok(put_counts(b"ok", records, corrections, out)) }
        Err(r) => Ok(put_no(r, out)),
    }
}

// What `why` prints: why each correction is taken, or the refusal, and what more is known of it. Zeros past it.
pub fn why_answer<'a>(frozen: &'a [u8], log: &'a [u8], want: &[u8], out: &mut [u8]) -> Answer
    ensures { Leaves 8600 out.old out.new (why_answer frozen.now log.now want.now) result }
{
    if out.len() < LONGEST_WHY {
        return too_short(out);
    }
    let wanted = wanted::numbers(want);
    let explained = selection::reasons(frozen, log, &wanted.at[..wanted.count]);
    slices::clear(out);
    Ok(put_explained(Texts { frozen, log }, explained, out))
}
