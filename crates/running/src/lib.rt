// What the four programs share: each reads the files of the folder that it is run in, and prints its answer. Of each file at most one byte
// past its limit is read, so that one that is too long is seen to be. Assumes nothing of the caller: any folder, any writer.
//
// What a file holds is the world's to say, so the contract says that what is printed is the program's text of some frozen file, some log and
// some list of wanted numbers.
#![tactic(auto)]

ghost use Rattle.std.specs.Prelude.{◌≡◌, ◌≤◌, ℕ, List, length, leb, true, OnOk};
ghost use Rattle.answers.specs.Answers.{Leaves};
ghost use Rattle.running.specs.Prints.{Prints};

use answers::{Answer, FROZEN_READ, LOG_READ, WANT_READ};
use std::io;
use std::io::Write;
use std::rt::Files;

// One of the programs; N bytes hold the longest of its answers.
pub trait Program<const N: usize> {
    // What it prints of a frozen file, a log and a list of wanted numbers.
    ghost text: { List ℕ → List ℕ → List ℕ → List ℕ };

    // Whether it has a list of wanted numbers; one that has none reads none.
    const WANTS: bool;

    fn answer(frozen: &[u8], log: &[u8], want: &[u8], out: &mut [u8; N]) -> Answer
        ensures { Leaves N out.old out.new (text frozen.now log.now want.now) result };

    ghost fits: { (frozen log want : List ℕ) → length (text frozen log want) ≤ N };

    // No program needs more room than a file.
    ghost small: { leb N 63840 ≡ true };
}

// Prints what the program answers to `frozen.txt`, `log.txt` and `want.txt`. A file that can't be read to its end counts as empty.
pub fn print_answer<P: Program<N>, R: Files, W: Write, const N: usize>(
    rt: &R,
    to: &mut W,
) -> io::Result<()>
    ensures { OnOk result (Prints P.text (W.contents to.old) (W.contents to.new)) }
{
    let mut frozen = [0u8; FROZEN_READ];
    let f = folder::read(rt, b"frozen.txt", &mut frozen);
    let mut log = [0u8; LOG_READ];
    let l = folder::read(rt, b"log.txt", &mut log);
    let mut want = [0u8; WANT_READ];
    let w = if P::WANTS {
        folder::read(rt, b"want.txt", &mut want)
    } else {
        0
    };
    let mut out = [0u8; N];
    match P::answer(&frozen[..f], &log[..l], &want[..w], &mut out) {
        Ok(n) => to.write_all(&out[..n]),
        Err(_) => Ok(()),
    }
}
