// Reading a file of the folder that a program is run in. Assumes nothing of the caller: any path, any buffer.
//
// What a file holds is the world's to say, so this is the one public contract of the library that leaves an answer open: it says only that
// the answer counts no more than the buffer holds, and that the rest is 0.
#![tactic(auto)]

ghost use Rattle.std.specs.Prelude.{◌≡◌, ◌-◌, ◌<◌, ◌≤◌, IfSome, length, take, drop, replicate};

use std::fs;
use std::io::Read;
use std::rt::Files;

// Reads until the buffer is full or the file ends, and answers how many bytes there are: as many as the file has and the buffer holds. An error
// midway leaves none of them: a file that can't be read is never taken for the part that was.
fn read_open<F: Read>(file: &mut F, into: &mut [u8]) -> usize
    ensures counted { result ≤ length into.new }
    ensures bytes { IfSome (F.remaining file.old)
        (λ xs. 0 < result → take result into.new ≡ take (length into.old) xs) }
{
    let mut done: usize = 0;
    // Each read says how many bytes came, so that no range counts them.
    while done < into.len() {
        match file.read(&mut into[done..]) {
            Ok(0) => return done,
            Ok(more) => done += more,
            Err(_) => return 0,
        }
    }
    done
}

// The same of the file at a path; none where it can't be opened. No file can be opened at a path that is no text in UTF-8.
fn read_at<R: Files>(rt: &R, path: &[u8], into: &mut [u8]) -> usize
    ensures { result ≤ length into.new }
{
    let Ok(path) = str::from_utf8(path) else {
        return 0;
    };
    let Ok(mut file) = fs::open(rt, path) else {
        return 0;
    };
    read_open(&mut file, into)
}

// The bytes of the file, as many as the buffer holds, and zeros past them; none where it can't be opened or can't be read.
pub fn read<R: Files>(rt: &R, path: &[u8], into: &mut [u8]) -> usize
    ensures counted { result ≤ length into.new }
    ensures prefix { result ≡ length (take result into.new) }
    ensures cleared { drop result into.new ≡ replicate (length into.old - result) 0 }
{
    let n = read_at(rt, path, &mut *into);
    slices::clear_from(into, n);
    n
}
