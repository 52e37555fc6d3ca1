// What judging says of a good leg with each of the 65,536 pairs of bytes in columns 48 and 49. record.txt has the leg, with every field filled that a
// leg may need. A pair that is accepted has a line: its two bytes, its terminator's number in the list, counted from 1, and the name that is
// put for that terminator. One that is refused otherwise than by 3 at column 48 has a line too: `no`, its bytes as numbers, and the refusal's number
// and column. The last two lines count those that are accepted, and those that are refused by 3 at column 48.
// The record and what is to be printed are made by the program in reference/.
#![tactic(auto)]

use leg::terminator::Terminator;
use refusals::Refusal;
use std::io;
use std::io::{BufWriter, Write};

fn print_recognised(to: &mut impl Write, rec: &[u8; 132]) -> io::Result<()> {
    let terminator = Terminator::of(rec);
    let mut name = [0u8; 132];
    terminator.put(&mut name);
    to.write_all(&rec[47..49])?;
    write!(to, "\t{}\t", terminator.number() + 1)?;
    to.write_all(&name[47..49])?;
    writeln!(to)
}

fn print_refused(to: &mut impl Write, rec: &[u8; 132], refusal: Refusal) -> io::Result<()> {
    let first = rec[47];
    let second = rec[48];
    let number = refusal.number;
    let column = refusal.column;
    writeln!(to, "no\t{first}\t{second}\t{number}\t{column}")
}

fn print_pairs(to: &mut impl Write, base: [u8; 132]) -> io::Result<()> {
    let mut rec = base;
    let mut accepted: usize = 0;
    let mut refused: usize = 0;
    for pair in 0..=u16::MAX {
        rec[47] = (pair / 256) as u8;
        rec[48] = (pair % 256) as u8;
        match leg::judge(&rec, 1) {
            Ok(()) => {
                print_recognised(to, &rec)?;
                accepted += 1;
            }
            Err(refusal) if refusal.number == Refusal::FIELD_CONTENT && refusal.column == 48 => {
                refused += 1;
            }
            Err(refusal) => print_refused(to, &rec, refusal)?,
        }
    }
    writeln!(to, "accepted\t{accepted}")?;
    writeln!(to, "refused\t{refused}")
}

fn main(rt: HostRuntime) -> io::Result<()> {
    let mut record = [0u8; 132];
    vectors::stored(&rt, "record.txt", &mut record)?;
    let mut to = BufWriter::new(rt.alloc(), io::writer(&rt))?;
    print_pairs(&mut to, record)?;
    to.flush()
}
