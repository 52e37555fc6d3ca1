// The number fields of a leg, each in its own unit. What a field of blanks says is `None` and no number. Any number can be held: one with
// more digits than its columns is refused when it is written. Assumes of its callers, all in this crate, that a field lies within a record,
// that one of plain digits has at most six columns, and that an altitude has five.
ghost use Rattle.std.specs.Prelude.{◌≡◌, ◌≤◌};
ghost use Rattle.columns.specs.Fields.{bytes_in};
ghost use Rattle.columns.specs.Words.{columns};
ghost use Rattle.leg.specs.Terminator.{is_holding};
ghost use Rattle.fields.specs.Numbers.{numeral};
ghost use Rattle.fields.specs.Optional.{quantity_of};
ghost use Rattle.fields.specs.Quantities.{course_of, bytes_of_course, distance_of, bytes_of_distance, altitude_of, bytes_of_altitude};
ghost use Rattle.fields.specs.Quantities.{vertical_angle_of, bytes_of_angle};

use crate::numbers::{number_in, number_within, put_marked, put_number};
use crate::part::Part;
use crate::text::{blank_in, byte_in, byte_within};
use crate::units::{
    Feet, FlightLevel, HundredthsOfDegree, TenthsOfDegree, TenthsOfMile, TenthsOfMinute, Unit,
    WholeDegrees,
};
use columns::field::Field;
use leg::terminator::Terminator;

// Columns 71-74: magnetic, or true.
#[derive(Clone, Copy, Debug, PartialEq, Eq)]
pub enum Course {
    Magnetic(TenthsOfDegree),
    True(WholeDegrees),
}

// Columns 75-78: on a holding also a time.
#[derive(Clone, Copy, Debug, PartialEq, Eq)]
pub enum Distance {
    Miles(TenthsOfMile),
    Minutes(TenthsOfMinute),
}

// Columns 85-89 and 90-94: feet above sea level, feet below it, or a flight level, which is no number of feet.
#[derive(Clone, Copy, Debug, PartialEq, Eq)]
pub enum Altitude {
    Feet(Feet),
    Below(Feet),
    Level(FlightLevel),
}

// The quantity in a field of plain digits. What is read where a field isn't blank differs from one reader to the next, in what it asks of the
// field and of the leg besides, so that each tests for blanks by itself.
#[tactic(auto, unfolding(crate::specs::Optional::unless_blank))]
pub(crate) fn quantity_in<U: Unit>(rec: &[u8], field: Field) -> Option<U>
    requires { field.1 ≤ 6 }
    ensures { result ≡ quantity_of U.of (bytes_in field rec.now) }
{
    if blank_in(rec, field) {
        None
    } else {
        Some(U::of(number_in(rec, field)))
    }
}

// The angle in columns 103-106, always downward.
#[tactic(auto, using(crate::proofs::ReadLaws::vertical_down), unfolding(crate::specs::Optional::unless_blank))]
pub(crate) fn vertical_angle_in(rec: &[u8]) -> Option<HundredthsOfDegree>
    ensures { result ≡ vertical_angle_of (columns 103 106 rec.now) }
{
    if blank_in(rec, Field::VERTICAL_ANGLE) {
        None
    } else {
        Some(HundredthsOfDegree(number_within(rec, Field::VERTICAL_ANGLE, 1, 3)))
    }
}

impl Course {
    #[tactic(auto, using(crate::proofs::ReadLaws::course_true, crate::proofs::ReadLaws::course_magnetic), unfolding(crate::specs::Optional::unless_blank))]
    pub(crate) fn of(rec: &[u8]) -> Option<Course>
        ensures { result ≡ course_of (columns 71 74 rec.now) }
    {
        if blank_in(rec, Field::COURSE) {
            return None;
        }
        if byte_within(rec, Field::COURSE, 3) == b'T' {
            return Some(Course::True(WholeDegrees(number_within(rec, Field::COURSE, 0, 3))));
        }
        Some(Course::Magnetic(TenthsOfDegree(number_in(rec, Field::COURSE))))
    }
}

impl Distance {
    // The distance of a leg of terminator t.
    #[tactic(auto, using(crate::proofs::ReadLaws::distance_minutes, crate::proofs::ReadLaws::distance_miles), unfolding(crate::specs::Optional::unless_blank))]
    pub(crate) fn of(rec: &[u8], t: Terminator) -> Option<Distance>
        ensures { result ≡ distance_of (is_holding t) (columns 75 78 rec.now) }
    {
        if blank_in(rec, Field::DISTANCE) {
            return None;
        }
        if t.is_holding() & (byte_in(rec, Field::DISTANCE) == b'T') {
            return Some(Distance::Minutes(TenthsOfMinute(number_within(
                rec,
                Field::DISTANCE,
                1,
                3,
            ))));
        }
        Some(Distance::Miles(TenthsOfMile(number_in(rec, Field::DISTANCE))))
    }
}

impl Altitude {
    // The altitude in one of two fields.
    #[tactic(auto, using(crate::proofs::ReadLaws::altitude_level, crate::proofs::ReadLaws::altitude_below, crate::proofs::ReadLaws::altitude_feet), unfolding(crate::specs::Optional::unless_blank))]
    pub(crate) fn of(rec: &[u8], field: Field) -> Option<Altitude>
        requires { (field.0 ≤ 132) × (field.1 ≡ 5) }
        ensures { result ≡ altitude_of (bytes_in field rec.now) }
    {
        if blank_in(rec, field) {
            return None;
        }
        match byte_in(rec, field) {
            b'F' => Some(Altitude::Level(FlightLevel(number_within(rec, field, 2, 3)))),
            b'-' => Some(Altitude::Below(Feet(number_within(rec, field, 1, 4)))),
            _ => Some(Altitude::Feet(Feet(number_in(rec, field)))),
        }
    }
}

// A number of plain digits.
impl<U: Unit> Part for U {
    ghost bytes = { λ w v. numeral w (U.worth v) };

    fn put(self, out: &mut [u8], field: Field) {
        put_number(out, field, self.number());
    }
}

impl Part for Course {
    ghost bytes = { λ w v. bytes_of_course v };

    #[tactic(auto, unfolding(crate::specs::Quantities::bytes_of_course))]
    fn put(self, out: &mut [u8], field: Field) {
        match self {
            Course::Magnetic(v) => put_marked(out, field, b"", 4, b"", v.0),
            Course::True(v) => put_marked(out, field, b"", 3, b"T", v.0),
        }
    }
}

impl Part for Distance {
    ghost bytes = { λ w v. bytes_of_distance v };

    #[tactic(auto, unfolding(crate::specs::Quantities::bytes_of_distance))]
    fn put(self, out: &mut [u8], field: Field) {
        match self {
            Distance::Miles(v) => put_marked(out, field, b"", 4, b"", v.0),
            Distance::Minutes(v) => put_marked(out, field, b"T", 3, b"", v.0),
        }
    }
}

impl Part for Altitude {
    ghost bytes = { λ w v. bytes_of_altitude v };

    #[tactic(auto, unfolding(crate::specs::Quantities::bytes_of_altitude))]
    fn put(self, out: &mut [u8], field: Field) {
        match self {
            Altitude::Feet(v) => put_marked(out, field, b"", 5, b"", v.0),
            Altitude::Below(v) => put_marked(out, field, b"-", 4, b"", v.0),
            Altitude::Level(v) => put_marked(out, field, b"FL", 3, b"", v.0),
        }
    }
}

// An angle downward.
impl Part for HundredthsOfDegree {
    ghost bytes = { λ w v. bytes_of_angle v };

    #[tactic(auto, unfolding(crate::specs::Quantities::bytes_of_angle))]
    fn put(self, out: &mut [u8], field: Field) {
        put_marked(out, field, b"-", 3, b"", self.0);
    }
}
