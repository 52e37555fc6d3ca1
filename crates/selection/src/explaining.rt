// Why each correction is taken: it is wanted, or a line of another one that is taken relies on it. `explain` assumes of its caller that no more
// than 200 corrections are taken; the rest assumes nothing.
//
// For each correction taken the lines are gone over once, and each costs a comparison of two numbers.
ghost use Rattle.std.specs.Prelude.{◌≡◌, ◌≤◌, Some, None};
ghost use Rattle.selection.specs.Failing.{settled_of};
ghost use Rattle.selection.specs.Reasons.{Asked, named_from, named_unless, named_with, reasons_of, reasons_as};

use crate::carry::{Members, members_of};
use crate::choosing::Chosen;
use crate::opening::Opened;
use crate::relied::MARKS;
use crate::{Explained, Failure};
use applying::is_marked;
use corrections::MOST_CORRECTIONS;

// A correction that relies on another one, and the source of the record whose line does. Zeros are what the reasons have where there is none.
#[derive(Clone, Copy, Debug, Default, PartialEq, Eq)]
pub(crate) struct Naming {
    pub relying: u32,
    pub source: u32,
}

// The marks of the wanted numbers, one byte for each number from 0 on.
fn asked_for(wanted: &[u32]) -> [u8; MARKS]
    ensures { Asked wanted.now result }
{
    let mut marks = [0; MARKS];
    for n in wanted {
        slices::put_after(&mut marks, *n as usize, 0, 1);
    }
    marks
}

// What tells why corrections are taken: the log, what is settled of it, and the marks of the numbers that are wanted.
#[derive(Clone, Copy)]
struct Why<'a> {
    opened: &'a Opened<'a>,
    chosen: &'a Chosen,
    asked: [u8; MARKS],
}

impl Why<'_> {
    // The first line of a correction taken that names p.
    fn first_naming(&self, p: usize) -> Option<Naming>
        ensures { result ≡ named_from self.now.opened.now.index self.now.chosen.now.relied self.now.chosen.now.marks p 0
            self.now.opened.now.index.count }
    {
        let index = &self.opened.index;
        for k in 0..index.count {
            let of = index.entries[k].correction;
            let marked = is_marked(&self.chosen.marks, of as usize);
            if marked & (self.chosen.relied[k] as usize == p) {
                return Some(Naming {
                    relying: of,
                    source: self.opened.source(k),
                });
            }
        }
        None
    }

    // The same, and none for a number that is wanted.
    fn reason_of(&self, p: usize) -> Option<Naming>
        ensures { result ≡ named_unless self.now.opened.now.index self.now.chosen.now.relied self.now.chosen.now.marks
            self.now.asked p }
    {
        if is_marked(&self.asked, p) {
            return None;
        }
        self.first_naming(p)
    }

    // The reasons of some corrections.
    fn explain(&self, members: &Members) -> Explained
        requires { members.now.count ≤ 200 }
        ensures { result ≡ named_with self.now.opened.now.index self.now.chosen.now.relied self.now.chosen.now.marks
            self.now.asked members.now }
    {
        let taken = members.at;
        let mut explained = Explained {
            count: members.count,
            taken,
            relying: [0; MOST_CORRECTIONS],
            source: [0; MOST_CORRECTIONS],
        };
        for i in 0..members.count {
            let named = self.reason_of(members.at[i] as usize).unwrap_or_default();
            explained.relying[i] = named.relying;
            explained.source[i] = named.source;
        }
        explained
    }
}

impl Opened<'_> {
    // The reasons of what `pick` takes; or its refusal, with what is wrong.
    pub(crate) fn reasons(&self, wanted: &[u32]) -> Result<Explained, Failure>
        ensures { result ≡ reasons_as self.now.texts.log.now (settled_of self.now.texts.frozen.now self.now.texts.log.now wanted.now)
            (reasons_of self.now.texts.frozen.now self.now.texts.log.now wanted.now) }
    {
        let chosen = self.choose(wanted)?;
        let members = members_of(&chosen.marks, self.index.corrections);
        let why = Why {
            opened: self,
            chosen: &chosen,
            asked: asked_for(wanted),
        };
        Ok(why.explain(&members))
    }
}
