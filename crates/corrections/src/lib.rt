// The log as text: its lines read one after the other into an index of its corrections, or the refusal.
// Assumes nothing of the caller: any bytes, any number of frozen records.
#![tactic(auto)]

mod lines;

ghost use Rattle.std.specs.Prelude.{◌≡◌, ◌+◌, ◌-◌, ◌<◌, ◌≤◌, [], ◌∷◌, length};
ghost use Rattle.corrections.specs.Reading.{
  line_verdict,
  begun_after,
  room_after,
  width_of,
  entry,
  entries_of,
  read_log,
  refused,
  index_of,
  grown,
};

use lines::{Line, line_of};
use refusals::{MOST_RECORDS, Refusal, Verdict};

// How many bytes a log has at most, and how many corrections.
pub const LONGEST_LOG: usize = 60000;

pub const MOST_CORRECTIONS: usize = 200;

// How many bytes a D or A line has, its line feed among them, and how many such lines a log has at most.
pub const CHANGE_WIDTH: usize = 135;

pub const MOST_CHANGES: usize = LONGEST_LOG / CHANGE_WIDTH;

// A D or A line of a log: its letter, the offset of its 132 bytes in the log and the number of its correction. The letter is a byte and no
// enum: whoever applies an index takes one with any letters.
#[derive(Clone, Copy, Debug, PartialEq, Eq)]
pub struct Entry {
    pub letter: u8,
    pub at: u32,
    pub correction: u32,
}

const NO_ENTRY: Entry = Entry {
    letter: 0,
    at: 0,
    correction: 0,
};

// What a log says: how many corrections, how many D and A lines, and these in their order; zeros past their count. A log of 60,000 bytes
// has no more than 444 such lines. An array with its count beside it, since memory is fixed: a Vec would ask for an allocator.
#[derive(Clone, Copy, Debug, PartialEq, Eq)]
pub struct Index {
    pub corrections: usize,
    pub count: usize,
    pub entries: [Entry; MOST_CHANGES],
}

impl Index {
    // Puts a D or A line, which stands at an offset, behind those before it.
    fn push(&mut self, letter: u8, at: usize)
        requires { (self.old.count < 444) × (self.old.corrections ≤ 200) × (at ≤ 60000) }
        ensures { self.new ≡ grown self.old self.old.corrections (entry letter (at + 2) self.old.corrections ∷ []) }
    {
        self.entries[self.count] = Entry {
            letter,
            at: (at + 2) as u32,
            correction: self.corrections as u32,
        };
        self.count += 1;
    }

    // Takes in a line, which stands at an offset.
    fn take(&mut self, line: Line, at: usize)
        requires { (self.old.count + length (entries_of self.old.corrections at line) ≤ 444)
            × (self.old.corrections ≤ 200)
            × (at ≤ 60000) }
        ensures { self.new ≡ grown self.old (begun_after self.old.corrections line) (entries_of self.old.corrections at line) }
    {
        match line {
            Line::Heading => {
                self.corrections += 1;
            }
            Line::TakenOut => self.push(b'D', at),
            Line::PutIn => self.push(b'A', at),
        }
    }
}

// How many A lines have room after a line.
fn room_after(line: Line, room: usize) -> usize
    ensures { result ≡ room_after room line }
{
    match line {
        Line::Heading | Line::TakenOut => room,
        Line::PutIn => room.saturating_sub(1),
    }
}

// Judges a line by its number, by how many corrections have begun and by how many A lines have room.
fn judge_line(line: Line, number: usize, begun: usize, room: usize) -> Verdict
    ensures { result ≡ line_verdict number begun room line }
{
    match line {
        Line::Heading if MOST_CORRECTIONS <= begun => Err(Refusal::too_many_corrections(number)),
        Line::PutIn if room == 0 => Err(Refusal::no_room(number)),
        Line::Heading | Line::TakenOut | Line::PutIn => Ok(()),
    }
}

// How many bytes a line has, its line feed among them.
fn width(line: Line, begun: usize) -> usize
    requires { begun ≤ 200 }
    ensures { result ≡ width_of begun line }
{
    match line {
        Line::Heading => lines::heading_width(begun + 1),
        Line::TakenOut | Line::PutIn => CHANGE_WIDTH,
    }
}

// The answer to a log that is refused by this: the refusal, with no index beside it.
#[tactic(auto, unfolding(crate::specs::Reading::index_of))]
pub fn refused_by(refusal: Refusal) -> Result<Index, Refusal>
    ensures { result ≡ index_of (refused refusal) }
{
    Err(refusal)
}

// Reads a log beside so many frozen records: 13 for its length; then line by line 9, and 13 for correction 201 and for an A line that
// has no room.
pub fn index_of(log: &[u8], frozen: usize) -> Result<Index, Refusal>
    ensures { result ≡ index_of (read_log log.now frozen) }
{
    if LONGEST_LOG < log.len() {
        return Err(Refusal::log_too_long());
    }
    let mut index = Index {
        corrections: 0,
        count: 0,
        entries: [NO_ENTRY; MOST_CHANGES],
    };
    let mut room = MOST_RECORDS.saturating_sub(frozen);
    let mut number: usize = 1;
    let mut at: usize = 0;
    // Each line says how wide it is, so that no iterator counts the offsets.
    while at < log.len() {
        let begun = index.corrections;
        let line = line_of(&log[at..], begun).map_err(|column| Refusal::log_line(number, column))?;
        judge_line(line, number, begun, room)?;
        let next = at + width(line, begun);
        index.take(line, at);
        room = room_after(line, room);
        at = next;
        number += 1;
    }
    Ok(index)
}
