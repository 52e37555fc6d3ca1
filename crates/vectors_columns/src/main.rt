// For each line of records.txt: which kind of record it is, the first column of its leftmost field that holds nothing legal, and the column
// of the bad byte in it, or 0 and 0.
// At most 65,536 bytes are read. The lines are the records of the worked vectors that crates/columns proves; they and what is to be printed
// are made by the program in reference/.
#![tactic(auto)]

use columns::Kind;
use std::io;
use std::io::{BufWriter, Write};

fn print_answer(to: &mut impl Write, rec: &[u8]) -> io::Result<()> {
    let kind = match columns::kind_of(rec) {
        Kind::Primary => "primary",
        Kind::Continuation => "continuation",
    };
    let field = columns::first_bad(rec);
    let byte = columns::bad_byte(rec);
    writeln!(to, "{kind}\t{field}\t{byte}")
}

// One answer for each line; a tail without a line feed is a line too.
fn print_answers(to: &mut impl Write, text: &[u8]) -> io::Result<()> {
    for line in text.split_inclusive(|&byte| byte == b'\n') {
        print_answer(to, line.strip_suffix(b"\n").unwrap_or(line))?;
    }
    Ok(())
}

fn main(rt: HostRuntime) -> io::Result<()> {
    let mut space = [0u8; 65536];
    let n = vectors::stored(&rt, "records.txt", &mut space)?;
    let mut to = BufWriter::new(rt.alloc(), io::writer(&rt))?;
    print_answers(&mut to, &space[..n])?;
    to.flush()
}
