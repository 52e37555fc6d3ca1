// What is settled before corrections are carried into the frozen file: the refusal, with what is wrong; or what each line relies on, and which
// corrections are taken. Assumes nothing.
ghost use Rattle.std.specs.Prelude.{◌≡◌, Err, MatchResult};
ghost use Rattle.applying.specs.Apply.{lines_of};
ghost use Rattle.selection.specs.Failing.{line_at, failure_by, failure_as, failure_of, settled};
ghost use Rattle.selection.specs.Reasons.{Chooses};

use crate::Failure;
use crate::opening::{Opened, within};
use crate::relied::{MARKS, taken};
use applying::{no_fault, run};
use corrections::MOST_CHANGES;
use refusals::Refusal;
use routes::{Texts, sources_of};

// What each line of an accepted log relies on, and a mark for each correction that is taken.
#[derive(Clone, Copy, Debug, PartialEq, Eq)]
pub(crate) struct Chosen {
    pub relied: [u32; MOST_CHANGES],
    pub marks: [u8; MARKS],
}

// A refusal of which no more is known.
impl From<Refusal> for Failure {
    ghost from_gives = { λ r f. f ≡ failure_by r };

    fn from(refusal: Refusal) -> Self {
        Failure {
            refusal,
            line: 0,
            fault: no_fault(),
        }
    }
}

// The number of the line that an offset of the log is in, from 1 on; 0 for the offset 0, where no record lies.
fn line_at(log: &[u8], at: u32) -> usize
    ensures { result ≡ line_at log.now at }
{
    if at == 0 {
        return 0;
    }
    let before = &log[..log.len().min(at as usize)];
    1 + before.iter().filter(|b| **b == b'\n').count()
}

impl Opened<'_> {
    // The verdict over the whole log, correction by correction 10, 11, with what is wrong.
    pub(crate) fn whole(&self) -> Result<(), Failure>
        ensures { result ≡ failure_of self.now.texts.frozen.now self.now.texts.log.now }
    {
        let Texts { frozen, log } = self.texts;
        match run(frozen, log, self.index, &[1; MARKS], sources_of(frozen)) {
            Ok(_) => Ok(()),
            Err(stopped) => Err(Failure {
                refusal: stopped.refusal,
                line: line_at(log, stopped.fault.at),
                fault: stopped.fault,
            }),
        }
    }

    // Settles 12, then the whole log; then finds the wanted corrections and those that they rely on.
    pub(crate) fn choose(&self, wanted: &[u32]) -> Result<Chosen, Failure>
        ensures { MatchResult result (Chooses self.now.texts.frozen.now self.now.texts.log.now self.now.index wanted.now)
            (λ x. failure_as self.now.texts.log.now
            (settled self.now.texts.frozen.now self.now.texts.log.now wanted.now self.now.index.corrections (lines_of self.now.index))
            ≡ Err x) }
    {
        within(self.index.corrections, wanted)?;
        self.whole()?;
        let relied = self.reliances();
        let marks = taken(&self.index.entries, &relied, wanted);
        Ok(Chosen { relied, marks })
    }
}
