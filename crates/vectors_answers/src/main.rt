// What the programs would print in each of the stored folders, one after the other:
//   folder, the folder's number, counted from 1
//   the answer of `pick`, as it is
//   the answer of `newfile`, as it is where it has at most 2,000 bytes; else bytes, how many, and their check sum
//   the answer of `check_log`, as it is
//   the answer of `why`, as it is
// folders.bin has for each folder three lengths, of four bytes each with the highest first, and then as many bytes of frozen.txt, of log.txt
// and of want.txt. It is read folder by folder, so there may be any number of them; the first one whose lengths are not whole ends the run.
// The folders and what is to be printed are made by the program in reference/.
#![tactic(auto)]

ghost use Rattle.std.specs.Prelude.{◌≤◌, length};

use std::io::{BufWriter, Read, Write};
use std::{fs, io};
use vectors::sum_of;

// The first n bytes, or as many as there are.
fn first(bytes: &[u8], n: usize) -> &[u8] {
    &bytes[..n.min(bytes.len())]
}

// The bytes of a file; or how many they are and their check sum.
fn print_file(to: &mut impl Write, bytes: &[u8]) -> io::Result<()> {
    let length = bytes.len();
    if length <= 2000 {
        return to.write_all(bytes);
    }
    let sum = sum_of(bytes);
    writeln!(to, "bytes\t{length}\t{sum}")
}

// ---- one folder

// The files of a folder, and how much of each there is; and the space that the answers to it are written in.
#[derive(Drop)]
struct Folder {
    frozen: [u8; answers::FROZEN_READ],
    log: [u8; answers::LOG_READ],
    want: [u8; answers::WANT_READ],
    lines: [u8; answers::LONGEST_WHY],
    file: [u8; answers::LONGEST_FILE],
}

// The length that is stored at this place, with the highest byte first.
fn length_at(lengths: &[u8], at: usize) -> usize {
    let a = slices::byte_at(lengths, at);
    let b = slices::byte_after(lengths, at, 1);
    let c = slices::byte_after(lengths, at, 2);
    let d = slices::byte_after(lengths, at, 3);
    u32::from_be_bytes([a, b, c, d]) as usize
}

// Reads the next n bytes, as long as the space has room, and answers how many there were. A read that fails ends them as the file's end does.
fn read_part(stored: &mut impl Read, space: &mut [u8], n: usize) -> usize
    ensures { result ≤ length space.new }
{
    let end = n.min(space.len());
    let mut done: usize = 0;
    // Each read says how many bytes came, so that no range counts them.
    while done < end {
        match stored.read(&mut space[done..end]) {
            Ok(0) => return done,
            Ok(more) => done += more,
            Err(_) => return done,
        }
    }
    done
}

// Reads a folder and prints its answers; false where there is none.
fn print_folder(
    to: &mut impl Write,
    stored: &mut impl Read,
    number: u64,
    space: &mut Folder,
) -> io::Result<bool> {
    let mut lengths = [0u8; 12];
    if read_part(stored, &mut lengths, 12) < 12 {
        return Ok(false);
    }
    let f = read_part(stored, &mut space.frozen, length_at(&lengths, 0));
    let l = read_part(stored, &mut space.log, length_at(&lengths, 4));
    let w = read_part(stored, &mut space.want, length_at(&lengths, 8));
    let frozen = &space.frozen[..f];
    let log = &space.log[..l];
    let want = &space.want[..w];
    writeln!(to, "folder\t{number}")?;
    let picked = answers::pick_answer(frozen, log, want, &mut space.lines).unwrap_or(0);
    to.write_all(first(&space.lines, picked))?;
    let made = answers::newfile_answer(frozen, log, want, &mut space.file).unwrap_or(0);
    print_file(to, first(&space.file, made))?;
    let checked = answers::check_answer(frozen, log, &mut space.lines).unwrap_or(0);
    to.write_all(first(&space.lines, checked))?;
    let explained = answers::why_answer(frozen, log, want, &mut space.lines).unwrap_or(0);
    to.write_all(first(&space.lines, explained))?;
    Ok(true)
}

fn main(rt: HostRuntime) -> io::Result<()> {
    let mut stored = fs::open(&rt, "folders.bin")?;
    let mut space = Folder {
        frozen: [0; answers::FROZEN_READ],
        log: [0; answers::LOG_READ],
        want: [0; answers::WANT_READ],
        lines: [0; answers::LONGEST_WHY],
        file: [0; answers::LONGEST_FILE],
    };
    let mut to = BufWriter::new(rt.alloc(), io::writer(&rt))?;
    for number in 1..4294967296 {
        if !print_folder(&mut to, &mut stored, number, &mut space)? {
            break;
        }
    }
    to.flush()
}
