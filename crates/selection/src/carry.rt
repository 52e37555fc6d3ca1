// What the corrections taken make of the frozen records. `carry` assumes of its caller that what is marked is not refused, which is so of what
// is taken from an accepted log; the rest assumes nothing.
ghost use Rattle.std.specs.Prelude.{◌≡◌, [], ◌∷◌, ◌≤◌, ◌<◌};
ghost use Rattle.applying.specs.Apply.{lines_of};
ghost use Rattle.applying.specs.Run.{marked};
ghost use Rattle.selection.specs.Pick.{Carries, members_from, with_members, members_as, refused_by, pick_by, pick_of, picked_as};

use crate::Picked;
use crate::opening::Opened;
use applying::{is_marked, run_unjudged};
use corrections::MOST_CORRECTIONS;
use refusals::{MOST_RECORDS, Refusal};
use routes::{Sources, Texts, sources_of};

// Some numbers in rising order, with zeros past them. An array with its count, since a pick and the reasons give the numbers so: a vector of
// fixed size would only be copied out into these.
#[derive(Clone, Copy, Debug, PartialEq, Eq)]
pub(crate) struct Members {
    pub count: usize,
    pub at: [u32; MOST_CORRECTIONS],
}

impl Members {
    // Puts a number behind the others.
    fn push(&mut self, n: usize)
        requires { (self.old.count < 200) × (n ≤ 200) }
        ensures { self.new ≡ with_members self.old (n ∷ []) }
    {
        self.at[self.count] = n as u32;
        self.count += 1;
    }
}

// The pick that is refused: nothing but zeros beside the refusal.
pub(crate) fn refused_pick(refusal: Refusal) -> Picked
    ensures { result ≡ picked_as (refused_by refusal) }
{
    Picked {
        verdict: Err(refusal),
        count: 0,
        taken: [0; MOST_CORRECTIONS],
        records: Sources {
            count: 0,
            at: [0; MOST_RECORDS],
        },
    }
}

// The marked numbers from 1 up to a total.
pub(crate) fn members_of(marks: &[u8], total: usize) -> Members
    requires { total ≤ 200 }
    ensures { result ≡ members_as (members_from (marked marks.now) 1 total) }
{
    let mut found = Members {
        count: 0,
        at: [0; MOST_CORRECTIONS],
    };
    for n in 0..total {
        if is_marked(marks, n + 1) {
            found.push(n + 1);
        }
    }
    found
}

impl Opened<'_> {
    // What the marked corrections make of the frozen records, where it is known that none of them is refused. So their lines are applied, and
    // no route is judged again.
    fn carry(&self, marks: &[u8]) -> Picked
        requires { Carries self.now.texts.frozen.now self.now.texts.log.now marks.now self.now.index }
        ensures { result ≡ picked_as
            (pick_by self.now.texts.frozen.now self.now.texts.log.now (marked marks.now) self.now.index.corrections (lines_of self.now.index)) }
    {
        let Texts { frozen, log } = self.texts;
        let records = match run_unjudged(frozen, log, self.index, marks, sources_of(frozen)) {
            Ok(records) => records,
            Err(_) => unreachable!(),
        };
        let members = members_of(marks, self.index.corrections);
        let taken = members.at;
        Picked {
            verdict: Ok(()),
            count: members.count,
            taken,
            records,
        }
    }

    // The pick: 12, then the whole log; then the wanted corrections and those that they rely on, alone. A refusal becomes a pick here, and does
    // not go on by `?`: a pick that came out of a Result would have its sources copied once more.
    pub(crate) fn pick(&self, wanted: &[u32]) -> Picked
        ensures { result ≡ picked_as (pick_of self.now.texts.frozen.now self.now.texts.log.now wanted.now) }
    {
        match self.choose(wanted) {
            Ok(chosen) => self.carry(&chosen.marks),
            Err(failure) => refused_pick(failure.refusal),
        }
    }
}
