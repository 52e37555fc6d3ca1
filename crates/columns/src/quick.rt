// A quick yes in front of the matcher: one look at each byte and the one before it, by a table of the pairs that may stand side by side. What
// the table takes is legal, as proofs/QuickLaws.antt computes of it; what it does not take is for the matcher to say. The same is done for every
// column, and stops at none, so the compiler takes many columns at once.
// Assumes of its callers that a record has 132 bytes, and a column or a pair is one of the table's.
ghost use Rattle.std.specs.Prelude.{◌≡◌, true, ◌<◌, ◌≤◌, length};
ghost use Rattle.columns.specs.Quick.{pair_takes, takes, pair_at, pairs_at, Taken};

// Four ranges for each of four pairs of each column, in lines of 132 bytes.
pub(crate) type Pairs = [u8; 2112];

// Whether the pair of ranges at i takes a byte behind another.
fn pair_takes(q: &Pairs, i: usize, before: u8, here: u8) -> bool
    requires { i < 1716 }
    ensures { result ≡ pair_takes (pair_at q.now i) before here }
{
    (q[i] <= before) & (before <= q[i + 132]) & ((q[i + 264] <= here) & (here <= q[i + 396]))
}

// Whether one of the four pairs of a column does.
#[tactic(auto, using(crate::proofs::QuickLaws::four_pairs))]
fn column_takes(q: &Pairs, c: usize, before: u8, here: u8) -> bool
    requires { c < 132 }
    ensures { result ≡ takes (pairs_at q.now c) before here }
{
    let a = pair_takes(q, c, before, here);
    let b = pair_takes(q, c + 528, before, here);
    let d = pair_takes(q, c + 1056, before, here);
    let e = pair_takes(q, c + 1584, before, here);
    a | (b | (d | e))
}

// Whether each of the 132 columns takes its byte behind the one before; the first byte has none before it, and counts as its own.
pub(crate) fn columns_taken<'a>(q: &'a Pairs, rec: &'a [u8]) -> bool
    requires { 132 ≤ length rec.now }
    ensures { result ≡ true → Taken q.now rec.now 132 }
{
    let mut taken = column_takes(q, 0, rec[0], rec[0]);
    for c in 1..132 {
        taken &= column_takes(q, c, rec[c - 1], rec[c]);
    }
    taken
}
