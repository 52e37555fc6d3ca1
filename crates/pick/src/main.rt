// Reads `frozen.txt`, `log.txt` and `want.txt`, and prints the corrections taken, or the refusal. A write that fails ends the program with an
// error. Assumes nothing.
#![tactic(auto)]

ghost use Rattle.std.specs.Prelude.{refl};
ghost use Rattle.answers.specs.Answers.{pick_answer};
ghost use Rattle.answers.proofs.Lengths.{pick_fits};

use answers::{Answer, LONGEST_PICK};
use running::{Program, print_answer};
use std::io;

struct Pick;

impl Program<LONGEST_PICK> for Pick {
    ghost text = { pick_answer };

    const WANTS: bool = true;

    fn answer(frozen: &[u8], log: &[u8], want: &[u8], out: &mut [u8; LONGEST_PICK]) -> Answer {
        answers::pick_answer(frozen, log, want, out)
    }

    ghost fits = { pick_fits };

    ghost small = { refl };
}

fn main(rt: HostRuntime) -> io::Result<()> {
    print_answer::<Pick, _, _, LONGEST_PICK>(&rt, &mut io::writer(&rt))
}
