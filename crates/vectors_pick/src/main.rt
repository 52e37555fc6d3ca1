// What checking a log, picking, explaining the pick and making the new file say of the stored cases, seven lines for each:
//   case, its number, and what checking the log with its frozen file says
//   fails, what is wrong where that is 10 or 11, zeros otherwise: the line of the log, the offset of its record, the number, place and
//         column of the route's own refusal, how many records the route has, and their sources
//   pick, what picking says, and where that is yes how many corrections are taken and how many records there are, the numbers of the
//         corrections, and the sources of the records
//   why, what explaining the pick says, and where that is yes how many corrections are taken, and for each its number, the one that
//         relies on it, and the source of the record by which that one does
//   file, what making the new file says
//   sums, the check sums of the answer to picking, of the answer to making the file, of the lent buffer, which was full of 255, of what
//         is wrong with the log, and of the answer to explaining, what is wrong among it
//   lines, the length and the check sum of line 0, line 1, the middle line, the last line, the one behind it and the last number there
//         is, all of one answer; of line 1 of the same answer with its verdict made a refusal; and of the middle line and the one behind
//         the last, each picked anew
// A verdict is `yes`, or `no` with the refusal's number, place and column. cases.bin has the cases as instructions of three bytes, which
// make them out of the records in records.bin:
//   0, 0, 0    the case is whole, and the next one begins, with nothing wanted and a buffer of 63,840 bytes
//   1, h, l    the record 256 h + l, counted from 0, and a line feed to the frozen file
//   2, b, n    the byte b, n times, to the frozen file
//   3, h, l    the last 256 h + l bytes of the frozen file taken away
//   4, h, l    a D line of the record 256 h + l to the log
//   5, h, l    an A line of the record 256 h + l to the log
//   6, h, l    C, a tab, the number 256 h + l and a line feed to the log
//   7, b, n    the byte b, n times, to the log
//   8, h, l    the last 256 h + l bytes of the log taken away
//   9, h, l    the number 256 h + l is wanted too
//   10, h, l   the last wanted number times 65,536, and 256 h + l more
//   11, h, l   the buffer has 256 h + l bytes
//   12, 0, 0   the frozen file begins as all of that of the case before
//   13, 0, 0   the log begins as all of that of the case before
// The cases and what is to be printed are made by the program in reference/.
#![tactic(auto)]

ghost use Rattle.std.specs.Prelude.{◌≤◌};

use applying::Fault;
use refusals::Refusal;
use routes::Sources;
use selection::{Explained, Failure, Picked};
use std::io;
use std::io::{BufWriter, Write};
use vectors::{Instruction, Said, Text, rolled, sum_of};

// A record of the set and its line feed.
const LINE: usize = 133;

// As many bytes as a buffer has, if an instruction does not say so.
const ROOM: usize = 63840;

// ---- check sums

// A check sum and these numbers.
fn with_numbers(sum: u64, numbers: &[u32]) -> u64 {
    numbers
        .iter()
        .fold(sum, |sum, &number| rolled(sum, u64::from(number)))
}

// A check sum and all sources, those past the count too.
fn with_sources(sum: u64, records: &Sources) -> u64 {
    with_numbers(rolled(sum, records.count as u64), &records.at)
}

// The check sum of an answer, with all corrections that may be taken, those past the count too.
fn answer_sum(picked: &Picked) -> u64 {
    let taken = with_numbers(rolled(0, picked.count as u64), &picked.taken);
    with_sources(taken, &picked.records)
}

// What is printed and summed of a log that does not fail, and where there are no reasons: a case has the same columns either way.
const NO_FAILURE: Failure = Failure {
    refusal: NO_REFUSAL,
    line: 0,
    fault: Fault {
        at: 0,
        route: Sources {
            count: 0,
            at: [0; 480],
        },
        inner: NO_REFUSAL,
    },
};

const NO_REFUSAL: Refusal = Refusal {
    number: 0,
    place: 0,
    column: 0,
};

const NO_REASONS: Explained = Explained {
    count: 0,
    taken: [0; 200],
    relying: [0; 200],
    source: [0; 200],
};

// The check sum of all that is said to be wrong.
fn failure_sum(failure: Failure) -> u64 {
    let fault = failure.fault;
    let inner = fault.inner;
    let line = rolled(rolled(0, failure.line as u64), fault.at as u64);
    let number = rolled(line, inner.number as u64);
    let refusal = rolled(rolled(number, inner.place as u64), inner.column as u64);
    with_sources(refusal, &fault.route)
}

fn reasons_sum(sum: u64, explained: &Explained) -> u64 {
    let taken = with_numbers(rolled(sum, explained.count as u64), &explained.taken);
    with_numbers(with_numbers(taken, &explained.relying), &explained.source)
}

fn explained_sum(explained: &Result<Explained, Failure>) -> u64 {
    match explained {
        Ok(explained) => reasons_sum(failure_sum(NO_FAILURE), explained),
        Err(failure) => reasons_sum(failure_sum(*failure), &NO_REASONS),
    }
}

// ---- one case

fn print_numbers(to: &mut impl Write, numbers: &[u32], count: usize) -> io::Result<()> {
    for number in numbers.iter().take(count) {
        write!(to, "\t{number}")?;
    }
    Ok(())
}

fn print_picked(to: &mut impl Write, picked: &Picked) -> io::Result<()> {
    write!(to, "\t{}", Said(picked.verdict))?;
    if picked.verdict.is_ok() {
        let count = picked.count;
        let records = picked.records.count;
        write!(to, "\t{count}\t{records}")?;
        print_numbers(to, &picked.taken, count)?;
        print_numbers(to, &picked.records.at, records)?;
    }
    Ok(())
}

// What is wrong with a log.
fn print_failure(to: &mut impl Write, failure: &Failure) -> io::Result<()> {
    let line = failure.line;
    let at = failure.fault.at;
    let inner = failure.fault.inner;
    let route = failure.fault.route;
    write!(to, "\t{line}\t{at}\t{inner}\t{}", route.count)?;
    print_numbers(to, &route.at, route.count)
}

fn print_explained(to: &mut impl Write, explained: &Result<Explained, Failure>) -> io::Result<()> {
    match explained {
        Ok(explained) => {
            write!(to, "\tyes\t{}", explained.count)?;
            let reasons = explained.taken.iter().zip(&explained.relying);
            for ((number, relying), source) in reasons
                .zip(&explained.source)
                .take(explained.count)
            {
                write!(to, "\t{number}\t{relying}\t{source}")?;
            }
            Ok(())
        }
        Err(failure) => write!(to, "\tno\t{}", failure.refusal),
    }
}

// The length and the check sum of a line.
fn print_line(to: &mut impl Write, line: &[u8]) -> io::Result<()> {
    let length = line.len();
    let sum = sum_of(line);
    write!(to, "\t{length}\t{sum}")
}

// The same pick, but refused.
fn refused(picked: Picked) -> Picked {
    Picked {
        verdict: Err(Refusal::buffer_too_short()),
        ..picked
    }
}

fn print_lines(
    to: &mut impl Write,
    frozen: &[u8],
    log: &[u8],
    wanted: &[u32],
    picked: Picked,
) -> io::Result<()> {
    let last = picked.records.count;
    let middle = last / 2 + last % 2;
    let behind = last.min(480) + 1;
    for n in [0, 1, middle, last, behind, usize::MAX] {
        print_line(to, selection::line_of(frozen, log, picked, n))?;
    }
    print_line(to, selection::line_of(frozen, log, refused(picked), 1))?;
    print_line(to, selection::line(frozen, log, wanted, middle))?;
    print_line(to, selection::line(frozen, log, wanted, behind))
}

fn print_case(
    to: &mut impl Write,
    number: usize,
    frozen: &[u8],
    log: &[u8],
    wanted: &[u32],
    out: &mut [u8],
) -> io::Result<()> {
    let checked = Said(selection::check_log(frozen, log));
    write!(to, "case\t{number}\t{checked}\nfails")?;
    let failure = selection::failing(frozen, log).err().unwrap_or(NO_FAILURE);
    print_failure(to, &failure)?;
    write!(to, "\npick")?;
    let picked = selection::pick(frozen, log, wanted);
    print_picked(to, &picked)?;
    write!(to, "\nwhy")?;
    let explained = selection::reasons(frozen, log, wanted);
    print_explained(to, &explained)?;
    out.fill(255);
    let made = selection::new_file(frozen, log, wanted, out);
    write!(to, "\nfile\t{}\nsums", Said(made.verdict))?;
    let sums = [
        answer_sum(&picked),
        answer_sum(&made),
        sum_of(out),
        failure_sum(failure),
        explained_sum(&explained),
    ];
    for sum in sums {
        write!(to, "\t{sum}")?;
    }
    write!(to, "\nlines")?;
    print_lines(to, frozen, log, wanted, picked)?;
    writeln!(to)
}

// ---- instructions

// A record of the set and its line feed; zeros where the set ends before.
fn record(records: &[u8], number: u16) -> [u8; LINE] {
    let mut line = [0u8; LINE];
    slices::copy(records, number as usize * LINE, &mut line, 0, LINE);
    line
}

// The wanted numbers, as many as there is room for.
#[derive(Drop)]
struct Wanted {
    numbers: [u32; 1000],
    count: usize,
    ghost within: { count ≤ 1000 },
}

impl Wanted {
    fn push(&mut self, number: u16) {
        if self.count < self.numbers.len() {
            self.numbers[self.count] = u32::from(number);
            self.count += 1;
        }
    }

    // The last one times 65,536, and so many more.
    fn lengthen(&mut self, number: u16) {
        if let Some(last) = self.count.checked_sub(1) {
            self.numbers[last] = self.numbers[last] % 65536 * 65536 + u32::from(number);
        }
    }
}

// A case: its number, what is said of it so far, and how many bytes of the buffer are lent.
#[derive(Drop)]
struct Case {
    number: usize,
    frozen: Text,
    log: Text,
    wanted: Wanted,
    room: usize,
}

// Prints the case, and begins the next one.
fn end(to: &mut impl Write, case: &mut Case, out: &mut [u8]) -> io::Result<()> {
    let room = case.room.min(out.len());
    print_case(
        to,
        case.number,
        case.frozen.bytes(),
        case.log.bytes(),
        &case.wanted.numbers[..case.wanted.count],
        &mut out[..room],
    )?;
    case.frozen.end();
    case.log.end();
    case.wanted.count = 0;
    case.room = ROOM;
    case.number = case.number.saturating_add(1).min(65536);
    Ok(())
}

// Carries out an instruction on a case.
fn carry_out(
    to: &mut impl Write,
    records: &[u8],
    case: &mut Case,
    step: Instruction,
    out: &mut [u8],
) -> io::Result<()> {
    let number = step.number();
    match step.kind {
        0 => end(to, case, out)?,
        1 => case.frozen.write_all(&record(records, number))?,
        2 => case.frozen.write_all(&[step.x; 255][..step.y as usize])?,
        3 => case.frozen.cut(number as usize),
        4 | 5 => {
            let letter = if step.kind == 4 { b'D' } else { b'A' };
            case.log.write_all(&[letter, b'\t'])?;
            case.log.write_all(&record(records, number))?;
        }
        6 => writeln!(case.log, "C\t{number}")?,
        7 => case.log.write_all(&[step.x; 255][..step.y as usize])?,
        8 => case.log.cut(number as usize),
        9 => case.wanted.push(number),
        10 => case.wanted.lengthen(number),
        11 => case.room = number as usize,
        12 => case.frozen.again(),
        13 => case.log.again(),
        _ => {}
    }
    Ok(())
}

fn print_cases(to: &mut impl Write, instructions: &[u8], records: &[u8]) -> io::Result<()> {
    let mut out = [0u8; 65536];
    let mut case = Case {
        number: 1,
        frozen: Text::new(),
        log: Text::new(),
        wanted: Wanted {
            numbers: [0; 1000],
            count: 0,
        },
        room: ROOM,
    };
    for step in instructions.chunks(3) {
        carry_out(to, records, &mut case, Instruction::of(step), &mut out)?;
    }
    Ok(())
}

fn main(rt: HostRuntime) -> io::Result<()> {
    let mut records = [0u8; 200000];
    let r = vectors::stored(&rt, "records.bin", &mut records)?;
    let mut instructions = [0u8; 200000];
    let n = vectors::stored(&rt, "cases.bin", &mut instructions)?;
    let mut to = BufWriter::new(rt.alloc(), io::writer(&rt))?;
    print_cases(&mut to, &instructions[..n], &records[..r])?;
    to.flush()
}
