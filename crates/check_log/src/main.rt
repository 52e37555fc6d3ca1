// Reads `frozen.txt` and `log.txt`, and prints how many records and corrections there are, or the refusal. A write that fails ends the program
// with an error. Assumes nothing.
#![tactic(auto)]

ghost use Rattle.std.specs.Prelude.{refl};
ghost use Rattle.answers.specs.Answers.{check_answer};
ghost use Rattle.answers.proofs.Lengths.{check_fits};

use answers::{Answer, LONGEST_CHECK};
use running::{Program, print_answer};
use std::io;

struct CheckLog;

impl Program<LONGEST_CHECK> for CheckLog {
    ghost text = { λ frozen log _. check_answer frozen log };

    const WANTS: bool = false;

    fn answer(frozen: &[u8], log: &[u8], _want: &[u8], out: &mut [u8; LONGEST_CHECK]) -> Answer {
        answers::check_answer(frozen, log, out)
    }

    ghost fits = { λ frozen log _. check_fits frozen log };

    ghost small = { refl };
}

fn main(rt: HostRuntime) -> io::Result<()> {
    print_answer::<CheckLog, _, _, LONGEST_CHECK>(&rt, &mut io::writer(&rt))
}
