// What reading says of the stored logs and lists of wanted numbers, a line for each: `yes`, the corrections and the D and A lines, and
// for each of these its letter, offset and correction; `no` with the refusal's number, place and column; or `want`, how many numbers
// there are, and the numbers. texts.bin has the texts as instructions of three bytes:
//   0, 0, 0   the log is whole, and the next text begins
//   1, l, b   the letter l, a tab, 132 bytes b and a line feed
//   2, h, l   C, a tab, the number 256 h + l and a line feed
//   3, h, l   the last 256 h + l bytes taken away
//   4, b, n   the byte b, n times
//   5, 0, 0   behind the end of a text: the next begins as all of it
//   6, 0, 0   the list is whole, and the next text begins
//   7, h, l   there are 256 h + l frozen records beside the log
// The texts and what is to be printed are made by the program in reference/.
#![tactic(auto)]

use std::io;
use std::io::{BufWriter, Write};
use vectors::{Instruction, Text};

// What reading a log says. It is called, as `print_list` is: a function pays for the size of its locals each time that it is entered, and an
// index is large beside one instruction.
#[inline(never)]
fn print_log(to: &mut impl Write, log: &[u8], frozen: usize) -> io::Result<()> {
    match &corrections::index_of(log, frozen) {
        Ok(index) => {
            let corrections = index.corrections;
            let count = index.count;
            write!(to, "yes\t{corrections}\t{count}")?;
            for entry in index.entries.iter().take(count) {
                write!(to, "\t{}\t{}\t{}", entry.letter, entry.at, entry.correction)?;
            }
            writeln!(to)
        }
        Err(refusal) => writeln!(to, "no\t{refusal}"),
    }
}

// What reading a list says.
#[inline(never)]
fn print_list(to: &mut impl Write, list: &[u8]) -> io::Result<()> {
    let wanted = wanted::numbers(list);
    write!(to, "want\t{}", wanted.count)?;
    for number in wanted.at.iter().take(wanted.count) {
        write!(to, "\t{number}")?;
    }
    writeln!(to)
}

// Carries out an instruction beside so many frozen records, and answers how many there are behind it; what the text that is whole comes to is
// printed.
fn carry_out(
    to: &mut impl Write,
    text: &mut Text,
    frozen: usize,
    step: Instruction,
) -> io::Result<usize> {
    match step.kind {
        0 => {
            print_log(to, text.bytes(), frozen)?;
            text.end();
            return Ok(0);
        }
        1 => {
            text.write_all(&[step.x, b'\t'])?;
            text.write_all(&[step.y; 132])?;
            text.write_all(b"\n")?;
        }
        2 => writeln!(text, "C\t{}", step.number())?,
        3 => text.cut(step.number() as usize),
        4 => text.write_all(&[step.x; 255][..step.y as usize])?,
        5 => text.again(),
        6 => {
            print_list(to, text.bytes())?;
            text.end();
        }
        7 => return Ok(step.number() as usize),
        _ => text.cut(usize::MAX),
    }
    Ok(frozen)
}

fn print_texts(to: &mut impl Write, instructions: &[u8]) -> io::Result<()> {
    let mut text = Text::new();
    let mut frozen = 0;
    for step in instructions.chunks(3) {
        frozen = carry_out(to, &mut text, frozen, Instruction::of(step))?;
    }
    Ok(())
}

fn main(rt: HostRuntime) -> io::Result<()> {
    let mut instructions = [0u8; 65536];
    let n = vectors::stored(&rt, "texts.bin", &mut instructions)?;
    let mut to = BufWriter::new(rt.alloc(), io::writer(&rt))?;
    print_texts(&mut to, &instructions[..n])?;
    to.flush()
}
