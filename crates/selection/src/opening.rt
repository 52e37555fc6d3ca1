// What is judged before any correction is applied: the log's length, the frozen file, the log's lines, the wanted numbers.
// Assumes nothing.
ghost use Rattle.std.specs.Prelude.{◌≡◌, Ok, MatchResult};
ghost use Rattle.corrections.specs.Reading.{refused, index_of};
ghost use Rattle.selection.specs.Pick.{opened, wanted_stage};

use corrections::{Index, LONGEST_LOG, index_of};
use refusals::{Refusal, Verdict};
use routes::{Texts, sources_of};

// A log that was read beside an accepted frozen file. The methods that carry it out stand in the other modules.
#[derive(Clone, Copy)]
pub(crate) struct Opened<'a> {
    pub texts: Texts<'a>,
    pub index: Index,
    ghost opens: { index_of (opened texts.frozen.now texts.log.now) ≡ Ok index },
}

impl<'a> Opened<'a> {
    // Opens a frozen file and a log: 13 for the log's length, 2 and the rest of the file, then the log's lines.
    pub(crate) fn new(texts: Texts<'a>) -> Result<Self, Refusal>
        ensures { MatchResult result
            (λ o. (o.texts.frozen.now ≡ texts.entry.frozen.now) × (o.texts.log.now ≡ texts.entry.log.now))
            (λ r. opened texts.entry.frozen.now texts.entry.log.now ≡ refused r) }
    {
        if LONGEST_LOG < texts.log.len() {
            return Err(Refusal::log_too_long());
        }
        routes::check(texts.frozen)?;
        let index = index_of(texts.log, sources_of(texts.frozen).count)?;
        Ok(Opened { texts, index })
    }
}

// Judges the wanted numbers, where the log has so many corrections: 12 at the first that is 0 or past the last correction.
pub(crate) fn within(corrections: usize, wanted: &[u32]) -> Verdict
    ensures { result ≡ wanted_stage corrections 1 wanted.now }
{
    match wanted
        .iter()
        .position(|n| *n == 0 || corrections < *n as usize)
    {
        Some(i) => Err(Refusal::not_in_log(i + 1)),
        None => Ok(()),
    }
}
