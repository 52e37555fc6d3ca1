// What the programs that try the stored vectors share: the stored files, the texts that instructions make, check sums, and what is printed of a
// verdict. Assumes nothing of the caller.
#![tactic(auto)]

ghost use Rattle.std.specs.Prelude.{◌≡◌, ◌+◌, ◌-◌, ◌*◌, ◌≤◌, ◌∷◌, ◌++◌, [], Some, Ok, IfOk, fold, length, min, drop, get_or, set, replicate, take};
ghost use Rattle.std.specs.Fmt.{decimal};
ghost use Rattle.std.proofs.lemmas.List.Edits.{sets};
ghost use Rattle.slices.specs.Part.{part};
ghost use Rattle.vectors.specs.Sums.{rolled};
ghost use Rattle.vectors.specs.Verdicts.{verdict_text};

use refusals::Verdict;
use std::io::Write;
use std::rt::Files;
use std::{fmt, fs, io};

// How many bytes of a stored file there are, as many as the buffer holds; zeros past them. One that is not there is an error; one that can't be
// read to its end counts as having none.
pub fn stored(rt: &impl Files, name: &str, into: &mut [u8]) -> io::Result<usize>
    ensures { IfOk result (λ n. (n ≤ length into.new) × (drop n into.new ≡ replicate (length into.old - n) 0)) }
{
    let _file = fs::open(rt, name)?;
    Ok(folder::read(rt, name.as_bytes(), into))
}

// ---- check sums

// One more number in a check sum, which is a number below 4,294,967,291.
pub fn rolled(sum: u64, number: u64) -> u64
    ensures { result ≡ rolled sum number }
{
    (sum % 4294967291 * 257 + number % 4294967296 + 1) % 4294967291
}

// The check sum of these bytes.
pub fn sum_of(bytes: &[u8]) -> u64
    ensures { result ≡ fold rolled 0 bytes.now }
{
    bytes
        .iter()
        .fold(0, |sum, &byte| rolled(sum, u64::from(byte)))
}

// ---- verdicts

// A verdict as it is printed: `yes`, or `no` with the refusal's number, place and column.
#[derive(Clone, Copy)]
pub struct Said(pub Verdict);

impl fmt::Display for Said {
    ghost output = { λ s. Some (verdict_text s.0) };

    fn fmt<W: fmt::Write>(&self, f: &mut fmt::Formatter<W>) -> fmt::Result {
        match self.0 {
            Ok(()) => write!(f, "yes"),
            Err(refusal) => write!(f, "no\t{refusal}"),
        }
    }
}

// ---- texts

// One of the instructions that make texts, each of three bytes; what is not there is 0.
#[derive(Clone, Copy)]
pub struct Instruction {
    pub kind: u8,
    pub x: u8,
    pub y: u8,
}

impl Instruction {
    pub fn of(bytes: &[u8]) -> Instruction
        ensures kind { result.kind ≡ get_or bytes.now 0 0 }
        ensures x { result.x ≡ get_or bytes.now 1 0 }
        ensures y { result.y ≡ get_or bytes.now 2 0 }
    {
        Instruction {
            kind: slices::byte_at(bytes, 0),
            x: slices::byte_at(bytes, 1),
            y: slices::byte_at(bytes, 2),
        }
    }

    // Its two bytes as one number.
    pub fn number(&self) -> u16
        ensures { result ≡ self.now.x * 256 + self.now.y }
    {
        u16::from(self.x) * 256 + u16::from(self.y)
    }
}

const SPACE: usize = 65536;

// A text that instructions make, and how long the text before it was. What goes past the space's end is dropped.
#[derive(Drop)]
pub struct Text {
    space: [u8; SPACE],
    length: usize,
    before: usize,
    ghost within: { length ≤ 65536 },
    ghost before_within: { before ≤ 65536 },
}

impl Text {
    pub fn new() -> Text
        ensures space { result.space ≡ replicate 65536 0 }
        ensures length { result.length ≡ 0 }
        ensures before { result.before ≡ 0 }
    {
        Text {
            space: [0; SPACE],
            length: 0,
            before: 0,
        }
    }

    pub fn bytes(&self) -> &[u8]
        ensures { result.now ≡ take self.now.length self.now.space }
    {
        &self.space[..self.length]
    }

    // Takes the last n bytes away, as long as there are so many.
    pub fn cut(&mut self, n: usize)
        ensures space { self.new.space ≡ self.old.space }
        ensures length { self.new.length ≡ self.old.length - n }
        ensures before { self.new.before ≡ self.old.before }
    {
        self.length = self.length.saturating_sub(n);
    }

    // Makes the text as long as the space, whatever stands there.
    pub fn fill(&mut self)
        ensures space { self.new.space ≡ self.old.space }
        ensures length { self.new.length ≡ 65536 }
        ensures before { self.new.before ≡ self.old.before }
    {
        self.length = SPACE;
    }

    // Puts a byte at a place of the space, or nowhere past its end.
    pub fn set(&mut self, place: usize, byte: u8)
        ensures space { self.new.space ≡ set self.old.space place byte }
        ensures length { self.new.length ≡ self.old.length }
        ensures before { self.new.before ≡ self.old.before }
    {
        slices::put_after(&mut self.space, place, 0, byte);
    }

    // Begins the next text.
    pub fn end(&mut self)
        ensures space { self.new.space ≡ self.old.space }
        ensures length { self.new.length ≡ 0 }
        ensures before { self.new.before ≡ self.old.length }
    {
        self.before = self.length;
        self.length = 0;
    }

    // Makes the text as long as the one before it. Where nothing was written since, it is that text.
    pub fn again(&mut self)
        ensures space { self.new.space ≡ self.old.space }
        ensures length { self.new.length ≡ self.old.before }
        ensures before { self.new.before ≡ self.old.before }
    {
        self.length = self.before;
    }
}

impl Write for Text {
    fn write(&mut self, buf: &[u8]) -> io::Result<usize>
        ensures all { result ≡ Ok (length buf.now) }
        ensures space { self.new.space ≡ sets self.old.space self.old.length buf.now }
        ensures length { self.new.length ≡ min (self.old.length + length buf.now) 65536 }
        ensures before { self.new.before ≡ self.old.before }
    {
        slices::copy(buf, 0, &mut self.space, self.length, buf.len());
        self.length = self.length.saturating_add(buf.len()).min(SPACE);
        Ok(buf.len())
    }

    fn flush(&mut self) -> io::Result<()> {
        Ok(())
    }
}
