// Reading, comparing and writing runs of bytes, at every place of every slice. A byte past a slice's end reads as 0, and a byte
// that is put past it is dropped, so no public function here asks anything of its caller.
#![tactic(auto)]

ghost use Rattle.std.specs.Prelude.{◌≡◌, ◌==◌, ◌++◌, ◌+◌, ◌-◌, ◌≤◌, ◌<◌, min, get_or, length, set, take, drop, replicate, leb};
ghost use Rattle.std.specs.List.{list_all};
ghost use Rattle.std.proofs.lemmas.List.Edits.{sets};
ghost use Rattle.slices.specs.Part.{part, blank, member};
ghost use Rattle.slices.specs.Order.{order, equal};
ghost use Rattle.slices.specs.Search.{first_at, is_line_feed};

// What `compare` answers; callers may name it by this crate.
pub use std::cmp::Ordering;

// The lesser of two numbers. Callers take the library's `min`; this stands because `unique_least`, a theorem, speaks of it.
pub fn least(a: usize, b: usize) -> usize
    ensures { result ≡ min a b }
{
    a.min(b)
}

// The byte at i, or 0 past the end.
pub fn byte_at(s: &[u8], i: usize) -> u8
    ensures { result ≡ get_or s.now i 0 }
{
    s.get(i).copied().unwrap_or(0)
}

// The byte k places after i, or 0 past the end; i + k may be larger than any usize.
pub fn byte_after(s: &[u8], i: usize, k: usize) -> u8
    ensures { result ≡ get_or s.now (i + k) 0 }
{
    byte_at(rest(s, i), k)
}

// Puts b in the place k after i, or nowhere past the end.
pub fn put_after(out: &mut [u8], i: usize, k: usize, b: u8)
    ensures { out.new ≡ set out.old (i + k) b }
{
    if k < out.len().saturating_sub(i) {
        out[i + k] = b;
    }
}

// What is left of a slice from i on, or nothing past the end.
fn rest(s: &[u8], i: usize) -> &[u8]
    ensures { result.now ≡ drop i s.now }
{
    s.get(i..).unwrap_or(&[])
}

// Whether the n bytes from i on lie within the slice; i + n may be larger than any usize.
fn lies(s: &[u8], i: usize, n: usize) -> bool
    ensures { result ≡ leb (i + n) (length s.now) }
{
    i <= s.len() && n <= s.len() - i
}

// How the n bytes of a from i on stand to the n bytes of b from j on, by the first that differs. It and what it calls are to be inlined:
// where n is a number in the caller's code, nothing is left of the loops but the loads.
#[inline]
pub fn compare(a: &[u8], i: usize, b: &[u8], j: usize, n: usize) -> Ordering
    ensures { result ≡ order (part n i a.now) (part n j b.now) }
{
    if lies(a, i, n) & lies(b, j, n) {
        compare_words(&a[i..i + n], &b[j..j + n])
    } else {
        compare_past(a, i, b, j, n)
    }
}

// The order of bytes, eight at a time while there are so many. The library's `cmp` and `==` of slices took a third to a half more
// instructions for a whole pick.
#[inline]
fn compare_words(mut x: &[u8], mut y: &[u8]) -> Ordering
    ensures { result ≡ order x.entry.now y.entry.now }
{
    while let (Some((p, x_rest)), Some((q, y_rest))) = (
        x.split_first_chunk::<8>(),
        y.split_first_chunk::<8>(),
    ) {
        let way = compare_word(p, q);
        if way.is_ne() {
            return way;
        }
        x = x_rest;
        y = y_rest;
    }
    compare_bytes(x, y)
}

// The order of bytes, one at a time. `cmp` of the two iterators took twice as many instructions for three bytes.
#[inline]
fn compare_bytes(x: &[u8], y: &[u8]) -> Ordering
    ensures { result ≡ order x.now y.now }
{
    for k in 0..x.len().min(y.len()) {
        let way = x[k].cmp(&y[k]);
        if way.is_ne() {
            return way;
        }
    }
    x.len().cmp(&y.len())
}

// What there is of a run: n bytes from i on at most.
fn front(s: &[u8], i: usize, n: usize) -> &[u8]
    ensures { result.now ≡ take n (drop i s.now) }
{
    let rest = rest(s, i);
    &rest[..rest.len().min(n)]
}

// Whether bytes are nothing but zeros.
fn all_zero(s: &[u8]) -> bool
    ensures { result ≡ list_all (λ b. b == 0) s.now }
{
    s.iter().all(|b| *b == 0)
}

// The order of bytes that may be past an end: what there is of both runs is compared, and what one has besides with zeros. It is not to be
// inlined: it is seldom asked, and its callers, which are to be, would be too large for that.
#[inline(never)]
fn compare_past(a: &[u8], i: usize, b: &[u8], j: usize, n: usize) -> Ordering
    ensures { result ≡ order (part n i a.now) (part n j b.now) }
{
    let x = front(a, i, n);
    let y = front(b, j, n);
    let both = x.len().min(y.len());
    let way = compare_words(&x[..both], &y[..both]);
    if way.is_ne() {
        return way;
    }
    if !all_zero(&x[both..]) {
        return Ordering::Greater;
    }
    if !all_zero(&y[both..]) {
        return Ordering::Less;
    }
    Ordering::Equal
}

// The order of eight bytes, by one comparison.
#[inline]
fn compare_word(p: &[u8; 8], q: &[u8; 8]) -> Ordering
    ensures { result ≡ order p.now q.now }
{
    u64::from_be_bytes(*p).cmp(&u64::from_be_bytes(*q))
}

// Whether the n bytes of a from i on are the n bytes of b from j on.
#[inline]
pub fn same(a: &[u8], i: usize, b: &[u8], j: usize, n: usize) -> bool
    ensures { result ≡ equal (part n i a.now) (part n j b.now) }
{
    if lies(a, i, n) & lies(b, j, n) {
        same_words(&a[i..i + n], &b[j..j + n])
    } else {
        compare_past(a, i, b, j, n).is_eq()
    }
}

// Whether bytes, as many of the one as of the other, are the same, eight at a time while there are so many. From the last on: the keys of
// routes at one airport differ late.
#[inline]
fn same_words(mut x: &[u8], mut y: &[u8]) -> bool
    requires { length x.now ≡ length y.now }
    ensures { result ≡ equal x.entry.now y.entry.now }
{
    while let (Some((x_rest, p)), Some((y_rest, q))) = (
        x.split_last_chunk::<8>(),
        y.split_last_chunk::<8>(),
    ) {
        if compare_word(p, q).is_ne() {
            return false;
        }
        x = x_rest;
        y = y_rest;
    }
    compare_bytes(x, y).is_eq()
}

// Whether the n bytes from i on are all blanks. None past the end is one.
pub fn is_blank(s: &[u8], i: usize, n: usize) -> bool
    ensures { result ≡ blank (part n i s.now) }
{
    if lies(s, i, n) {
        s[i..i + n].iter().all(|b| *b == b' ')
    } else {
        n == 0
    }
}

// Whether one of the n bytes from i on is b.
pub fn has(s: &[u8], i: usize, n: usize, b: u8) -> bool
    ensures { result ≡ member b (part n i s.now) }
{
    if lies(s, i, n) {
        s[i..i + n].contains(&b)
    } else if b == 0 {
        0 < n
    } else {
        rest(s, i).contains(&b)
    }
}

// Copies the n bytes of from that begin at i over those of out that begin at `at`.
pub fn copy(from: &[u8], i: usize, out: &mut [u8], at: usize, n: usize)
    ensures { out.new ≡ sets out.old at (part n i from.now) }
{
    if lies(from, i, n) & lies(out, at, n) {
        out[at..at + n].copy_from_slice(&from[i..i + n]);
    } else {
        copy_past(from, i, out, at, n);
    }
}

// The same of bytes, or to places, that may be past an end.
fn copy_past(from: &[u8], i: usize, out: &mut [u8], at: usize, n: usize)
    ensures { out.new ≡ sets out.old at (part n i from.now) }
{
    for k in 0..n {
        put_after(out, at, k, byte_after(from, i, k));
    }
}

// Makes every byte 0 from `at` on.
pub fn clear_from(out: &mut [u8], at: usize)
    ensures { out.new ≡ take at out.old ++ replicate (length out.old - at) 0 }
{
    let at = at.min(out.len());
    out[at..].fill(0);
}

// Makes every byte 0.
pub fn clear(out: &mut [u8])
    ensures { out.new ≡ replicate (length out.old) 0 }
{
    out.fill(0);
}

// The place of the first line feed at or after `from`; where there is none, the slice's end, or `from` where that is past it.
pub fn line_feed(s: &[u8], from: usize) -> usize
    ensures { result ≡ from + first_at is_line_feed (drop from s.now) }
{
    let rest = rest(s, from);
    from + rest.iter().position(|b| *b == b'\n').unwrap_or(rest.len())
}
