// What checking says of the stored files: for each a line, `yes`, or `no` with the refusal's number, place and column. files.bin has the
// files as instructions of three bytes, which make them out of the records in bases.bin:
//   0, 0, 0   the file is whole, and the next one begins
//   1, n, 0   one more record, the n-th of bases.bin, and a line feed
//   2, c, b   the byte b in column c of the last record
//   3, k, 0   the last k bytes taken away
//   4, b, 0   one more byte
//   5, 0, 0   behind a 0, 0, 0: the file begins as all of the one before it
// The files and what is to be printed are made by the program in reference/.
#![tactic(auto)]

use std::io;
use std::io::{BufWriter, Write};
use vectors::{Instruction, Said, Text};

// Behind a file that is longer than this, and so too long by far, nothing is counted any more.
const LONG: usize = 65000;

// The n-th record of the bases, counted from 0, and a line feed.
fn with_line_feed(bases: &[u8], n: u8) -> [u8; 133] {
    let mut line = [b'\n'; 133];
    slices::copy(bases, n as usize * 132, &mut line, 0, 132);
    line
}

// Puts bytes behind a file; one that was longer than LONG fills the space from then on.
fn put_behind(file: &mut Text, bytes: &[u8]) -> io::Result<()> {
    let long = LONG < file.bytes().len();
    file.write_all(bytes)?;
    if long {
        file.fill();
    }
    Ok(())
}

// Carries out an instruction; what the file that is whole comes to is printed.
fn carry_out(
    to: &mut impl Write,
    bases: &[u8],
    file: &mut Text,
    step: Instruction,
) -> io::Result<()> {
    match step.kind {
        0 => {
            writeln!(to, "{}", Said(routes::check(file.bytes())))?;
            file.end();
        }
        1 => put_behind(file, &with_line_feed(bases, step.x))?,
        2 => {
            if let Some(last) = file.bytes().len().checked_sub(133) {
                if 1 <= step.x {
                    file.set(last + step.x as usize - 1, step.y);
                }
            }
        }
        3 => file.cut(step.x as usize),
        4 => put_behind(file, &[step.x])?,
        5 => file.again(),
        _ => file.cut(usize::MAX),
    }
    Ok(())
}

fn print_files(to: &mut impl Write, bases: &[u8], instructions: &[u8]) -> io::Result<()> {
    let mut file = Text::new();
    for step in instructions.chunks(3) {
        carry_out(to, bases, &mut file, Instruction::of(step))?;
    }
    Ok(())
}

fn main(rt: HostRuntime) -> io::Result<()> {
    let mut bases = [0u8; 4096];
    let b = vectors::stored(&rt, "bases.bin", &mut bases)?;
    let mut instructions = [0u8; 65536];
    let n = vectors::stored(&rt, "files.bin", &mut instructions)?;
    let mut to = BufWriter::new(rt.alloc(), io::writer(&rt))?;
    print_files(&mut to, &bases[..b], &instructions[..n])?;
    to.flush()
}
