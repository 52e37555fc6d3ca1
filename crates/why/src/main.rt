// Reads `frozen.txt`, `log.txt` and `want.txt`, and prints why each correction is taken, or the refusal and what it is about. A write that fails
// ends the program with an error. Assumes nothing.
#![tactic(auto)]

ghost use Rattle.std.specs.Prelude.{refl};
ghost use Rattle.answers.specs.Why.{why_answer};
ghost use Rattle.answers.proofs.Lengths.{why_fits};

use answers::{Answer, LONGEST_WHY};
use running::{Program, print_answer};
use std::io;

struct Why;

impl Program<LONGEST_WHY> for Why {
    ghost text = { why_answer };

    const WANTS: bool = true;

    fn answer(frozen: &[u8], log: &[u8], want: &[u8], out: &mut [u8; LONGEST_WHY]) -> Answer {
        answers::why_answer(frozen, log, want, out)
    }

    ghost fits = { why_fits };

    ghost small = { refl };
}

fn main(rt: HostRuntime) -> io::Result<()> {
    print_answer::<Why, _, _, LONGEST_WHY>(&rt, &mut io::writer(&rt))
}
