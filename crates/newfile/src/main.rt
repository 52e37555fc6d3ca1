// Reads `frozen.txt`, `log.txt` and `want.txt`, and prints the new file alone, or the refusal. A write that fails ends the program with an error.
// Assumes nothing.
#![tactic(auto)]

ghost use Rattle.std.specs.Prelude.{refl};
ghost use Rattle.answers.specs.Answers.{newfile_answer};
ghost use Rattle.answers.proofs.Lengths.{newfile_fits};

use answers::{Answer, LONGEST_FILE};
use running::{Program, print_answer};
use std::io;

struct NewFile;

impl Program<LONGEST_FILE> for NewFile {
    ghost text = { newfile_answer };

    const WANTS: bool = true;

    fn answer(frozen: &[u8], log: &[u8], want: &[u8], out: &mut [u8; LONGEST_FILE]) -> Answer {
        answers::newfile_answer(frozen, log, want, out)
    }

    ghost fits = { newfile_fits };

    ghost small = { refl };
}

fn main(rt: HostRuntime) -> io::Result<()> {
    print_answer::<NewFile, _, _, LONGEST_FILE>(&rt, &mut io::writer(&rt))
}
