// The stages of judging that look at more than one field: companions, and the fields that a leg needs. Each answers a column, if it finds one.
// Assumes of its callers, all in this file, that columns count from 1; the two stages themselves assume nothing.
ghost use Rattle.std.specs.Prelude.{◌≡◌, ◌&&◌, ◌≤◌, option_map};
ghost use Rattle.std.specs.List.{find};
ghost use Rattle.slices.specs.Part.{blank};
ghost use Rattle.columns.specs.Fields.{bytes_in};
ghost use Rattle.leg.specs.Stages.{found, odd_one, asks, companion_column, needable, needed_column};

use crate::terminator::Terminator;
use columns::field::Field;
use slices::byte_at;

fn is_blank(rec: &[u8], field: Field) -> bool
    ensures { result ≡ blank (bytes_in field rec.now) }
{
    slices::is_blank(rec, field.0.saturating_sub(1), field.1)
}

// Of a group of companions the column of the first blank one, unless all are blank or none is.
#[tactic(auto, unfolding(crate::specs::Stages::odd_one))]
fn odd_one(rec: &[u8], f: Field, g: Field, h: Field) -> Option<usize>
    requires { (1 ≤ f.0) × (1 ≤ g.0) × (1 ≤ h.0) }
    ensures { result ≡ found (odd_one f g h rec.now 0) }
{
    match (is_blank(rec, f), is_blank(rec, g), is_blank(rec, h)) {
        (true, true, true) | (false, false, false) => None,
        (true, _, _) => Some(f.0),
        (_, true, _) => Some(g.0),
        _ => Some(h.0),
    }
}

// The first blank column of the leftmost group of companions that is neither all filled nor all blank.
pub(crate) fn companion_column(rec: &[u8]) -> Option<usize>
    ensures { result ≡ found (companion_column rec.now) }
{
    let fix = odd_one(rec, Field::FIX, Field::FIX_ICAO, Field::FIX_SECTION);
    let navaid = odd_one(
        rec,
        Field::NAVAID,
        Field::NAVAID_ICAO,
        Field::NAVAID_SECTION,
    );
    let centre = odd_one(
        rec,
        Field::CENTRE_FIX,
        Field::CENTRE_FIX_ICAO,
        Field::CENTRE_FIX_SECTION,
    );
    fix.or(navaid.or(centre))
}

// A field that a leg may need, and the letter by which a terminator needs it.
#[derive(Clone, Copy)]
pub struct Needable(pub u8, pub Field);

// From left to right. No terminator needs the second altitude.
const NEEDABLE: [Needable; 11] = [
    Needable(b'F', Terminator::FIX),
    Needable(b'T', Terminator::TURN),
    Needable(b'N', Terminator::NAVAID),
    Needable(b'X', Terminator::ARC_RADIUS),
    Needable(b'H', Terminator::THETA),
    Needable(b'R', Terminator::RHO),
    Needable(b'C', Terminator::COURSE),
    Needable(b'D', Terminator::DISTANCE),
    Needable(b'A', Terminator::ALTITUDE),
    Needable(b' ', Terminator::SECOND_ALTITUDE),
    Needable(b'O', Terminator::CENTRE_FIX),
];

// Whether a leg needs the field of a letter: because its terminator does, or because it is one of both altitudes.
fn is_asked(t: Terminator, both: bool, letter: u8) -> bool
    ensures { result ≡ asks t both letter }
{
    (((letter == b'A') | (letter == b' ')) & both) | t.needed(letter)
}

// The lowest column of a field that is asked for and blank. A filled field is mostly told by its first byte, so that is looked at first.
fn missing_column(rec: &[u8], t: Terminator, both: bool) -> Option<usize>
    ensures { result ≡ option_map (λ n. n.1.0) (find (λ n. blank (bytes_in n.1 rec.now) && asks t both n.0) needable) }
{
    NEEDABLE
        .iter()
        .find(|one| is_blank(rec, one.1) && is_asked(t, both, one.0))
        .map(|one| one.1.0)
}

// The lowest column of a field that the leg needs and that is blank.
pub(crate) fn needed_column(rec: &[u8]) -> Option<usize>
    ensures { result ≡ found (needed_column rec.now) }
{
    let both = byte_at(rec, Field::ALTITUDE_DESCRIPTION.0 - 1) == b'B';
    missing_column(rec, Terminator::of(rec), both)
}
