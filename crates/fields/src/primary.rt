// A leg: the parts of a primary record. Any parts can be held; those that no legal record gives are refused when they are written.
// Assumes nothing of the caller.
ghost use Rattle.std.specs.Prelude.{◌≡◌};
ghost use Rattle.fields.specs.Pieces.{put_all};
ghost use Rattle.fields.specs.Leg.{description_of, navaid_of, centre_fix_of, leg_of};
ghost use Rattle.fields.specs.Leg.{path_pieces, course_pieces, height_pieces, centre_pieces, render_leg};

use crate::head::{Head, Tail, is_continuation_number};
use crate::part::Part;
use crate::quantities::{Altitude, Course, Distance, quantity_in, vertical_angle_in};
use crate::text::{Letter, Text, byte_in, letter_in, put_byte, put_if, word_in};
use crate::turn::Turn;
use crate::units::{
    Feet, HundredthsOfDegree, Knots, Rnp, TenthsOfDegree, TenthsOfMile, ThousandthsOfMile,
};
use columns::field::Field;
use leg::terminator::Terminator;

// The codes of columns 40-43, in which a blank is a code too.
#[derive(Clone, Copy, Debug, PartialEq, Eq)]
pub struct Description(pub u8, pub u8, pub u8, pub u8);

// The recommended navaid: columns 51-56, 79 and 80.
#[derive(Clone, Copy, Debug, PartialEq, Eq)]
pub struct Navaid {
    pub identifier: Option<Text>,
    pub icao: Option<Text>,
    pub section: Option<Letter>,
    pub subsection: u8,
}

// Columns 107-116.
#[derive(Clone, Copy, Debug, PartialEq, Eq)]
pub struct CentreFix {
    pub identifier: Option<Text>,
    pub multiple: Option<Letter>,
    pub icao: Option<Text>,
    pub section: Option<Letter>,
    pub subsection: u8,
}

#[derive(Clone, Copy, Debug, PartialEq, Eq)]
pub struct Leg {
    pub head: Head,
    pub continuation: u8,
    pub description: Description,
    pub turn: Option<Turn>,
    pub rnp: Option<Rnp>,
    pub terminator: Terminator,
    pub turn_valid: Option<Letter>,
    pub navaid: Navaid,
    pub arc_radius: Option<ThousandthsOfMile>,
    pub theta: Option<TenthsOfDegree>,
    pub rho: Option<TenthsOfMile>,
    pub course: Option<Course>,
    pub distance: Option<Distance>,
    pub altitude_description: u8,
    pub atc: Option<Letter>,
    pub altitude: Option<Altitude>,
    pub second_altitude: Option<Altitude>,
    pub transition_altitude: Option<Feet>,
    pub speed: Option<Knots>,
    pub vertical_angle: Option<HundredthsOfDegree>,
    pub centre_fix: CentreFix,
    pub gps: Option<Letter>,
    pub qualifier: Option<Letter>,
    pub second_qualifier: Option<Letter>,
    pub tail: Tail,
}

impl Description {
    #[tactic(auto, unfolding(crate::specs::Leg::description_of))]
    fn of(rec: &[u8]) -> Description
        ensures { result ≡ description_of rec.now }
    {
        Description(
            byte_in(rec, Field::FIRST_DESCRIPTION),
            byte_in(rec, Field::SECOND_DESCRIPTION),
            byte_in(rec, Field::THIRD_DESCRIPTION),
            byte_in(rec, Field::FOURTH_DESCRIPTION),
        )
    }
}

impl Navaid {
    #[tactic(auto, unfolding(crate::specs::Leg::navaid_of))]
    fn of(rec: &[u8]) -> Navaid
        ensures { result ≡ navaid_of rec.now }
    {
        Navaid {
            identifier: word_in(rec, Field::NAVAID),
            icao: word_in(rec, Field::NAVAID_ICAO),
            section: letter_in(rec, Field::NAVAID_SECTION),
            subsection: byte_in(rec, Field::NAVAID_SUBSECTION),
        }
    }
}

impl CentreFix {
    #[tactic(auto, unfolding(crate::specs::Leg::centre_fix_of))]
    fn of(rec: &[u8]) -> CentreFix
        ensures { result ≡ centre_fix_of rec.now }
    {
        CentreFix {
            identifier: word_in(rec, Field::CENTRE_FIX),
            multiple: letter_in(rec, Field::CENTRE_FIX_MULTIPLE),
            icao: word_in(rec, Field::CENTRE_FIX_ICAO),
            section: letter_in(rec, Field::CENTRE_FIX_SECTION),
            subsection: byte_in(rec, Field::CENTRE_FIX_SUBSECTION),
        }
    }
}

impl Leg {
    // The leg of a record that was judged.
    #[tactic(auto, unfolding(crate::specs::Leg::leg_of))]
    pub fn of(rec: &[u8]) -> Leg
        ensures { result ≡ leg_of rec.now }
    {
        let terminator = Terminator::of(rec);
        Leg {
            head: Head::of(rec),
            continuation: byte_in(rec, Field::CONTINUATION),
            description: Description::of(rec),
            turn: Turn::of(rec),
            rnp: quantity_in(rec, Field::RNP),
            terminator,
            turn_valid: letter_in(rec, Field::TURN_VALID),
            navaid: Navaid::of(rec),
            arc_radius: quantity_in(rec, Field::ARC_RADIUS),
            theta: quantity_in(rec, Field::THETA),
            rho: quantity_in(rec, Field::RHO),
            course: Course::of(rec),
            distance: Distance::of(rec, terminator),
            altitude_description: byte_in(rec, Field::ALTITUDE_DESCRIPTION),
            atc: letter_in(rec, Field::ATC),
            altitude: Altitude::of(rec, Field::ALTITUDE),
            second_altitude: Altitude::of(rec, Field::SECOND_ALTITUDE),
            transition_altitude: quantity_in(rec, Field::TRANSITION_ALTITUDE),
            speed: quantity_in(rec, Field::SPEED),
            vertical_angle: vertical_angle_in(rec),
            centre_fix: CentreFix::of(rec),
            gps: letter_in(rec, Field::GPS),
            qualifier: letter_in(rec, Field::QUALIFIER),
            second_qualifier: letter_in(rec, Field::SECOND_QUALIFIER),
            tail: Tail::of(rec),
        }
    }

    // Columns 39-56.
    #[tactic(auto, unfolding(crate::specs::Pieces::put_all, crate::specs::Pieces::put, crate::specs::Leg::path_pieces))]
    fn put_path(self, out: &mut [u8])
        ensures { out.new ≡ put_all (path_pieces self) out.old }
    {
        let primary = !is_continuation_number(self.continuation);
        put_if(out, Field::CONTINUATION, primary, self.continuation);
        put_byte(out, Field::FIRST_DESCRIPTION, self.description.0);
        put_byte(out, Field::SECOND_DESCRIPTION, self.description.1);
        put_byte(out, Field::THIRD_DESCRIPTION, self.description.2);
        put_byte(out, Field::FOURTH_DESCRIPTION, self.description.3);
        self.turn.put(out, Field::TURN);
        self.rnp.put(out, Field::RNP);
        self.terminator.put(out);
        self.turn_valid.put(out, Field::TURN_VALID);
        self.navaid.identifier.put(out, Field::NAVAID);
        self.navaid.icao.put(out, Field::NAVAID_ICAO);
    }

    // Columns 57-82.
    #[tactic(auto, unfolding(crate::specs::Pieces::put_all, crate::specs::Pieces::put, crate::specs::Leg::course_pieces))]
    fn put_course(self, out: &mut [u8])
        ensures { out.new ≡ put_all (course_pieces self) out.old }
    {
        self.arc_radius.put(out, Field::ARC_RADIUS);
        self.theta.put(out, Field::THETA);
        self.rho.put(out, Field::RHO);
        self.course.put(out, Field::COURSE);
        self.distance.put(out, Field::DISTANCE);
        self.navaid.section.put(out, Field::NAVAID_SECTION);
        put_byte(out, Field::NAVAID_SUBSECTION, self.navaid.subsection);
    }

    // Columns 83-106.
    #[tactic(auto, unfolding(crate::specs::Pieces::put_all, crate::specs::Leg::height_pieces))]
    fn put_height(self, out: &mut [u8])
        ensures { out.new ≡ put_all (height_pieces self) out.old }
    {
        put_byte(out, Field::ALTITUDE_DESCRIPTION, self.altitude_description);
        self.atc.put(out, Field::ATC);
        self.altitude.put(out, Field::ALTITUDE);
        self.second_altitude.put(out, Field::SECOND_ALTITUDE);
        self.transition_altitude
            .put(out, Field::TRANSITION_ALTITUDE);
        self.speed.put(out, Field::SPEED);
        self.vertical_angle.put(out, Field::VERTICAL_ANGLE);
    }

    // Columns 107-123.
    #[tactic(auto, unfolding(crate::specs::Pieces::put_all, crate::specs::Pieces::put, crate::specs::Leg::centre_pieces))]
    fn put_centre(self, out: &mut [u8])
        ensures { out.new ≡ put_all (centre_pieces self) out.old }
    {
        self.centre_fix.identifier.put(out, Field::CENTRE_FIX);
        self.centre_fix
            .multiple
            .put(out, Field::CENTRE_FIX_MULTIPLE);
        self.centre_fix.icao.put(out, Field::CENTRE_FIX_ICAO);
        self.centre_fix.section.put(out, Field::CENTRE_FIX_SECTION);
        put_byte(
            out,
            Field::CENTRE_FIX_SUBSECTION,
            self.centre_fix.subsection,
        );
        self.gps.put(out, Field::GPS);
        self.qualifier.put(out, Field::QUALIFIER);
        self.second_qualifier.put(out, Field::SECOND_QUALIFIER);
    }

    // The record of the leg, whether it is legal or not.
    #[tactic(auto, using(crate::proofs::PutLaws::put_all_both), unfolding(crate::specs::Leg::render_leg, crate::specs::Leg::leg_pieces))]
    pub fn render(self) -> [u8; 132]
        ensures { result ≡ render_leg self }
    {
        let mut out = [b' '; 132];
        self.head.put(&mut out);
        self.put_path(&mut out);
        self.put_course(&mut out);
        self.put_height(&mut out);
        self.put_centre(&mut out);
        self.tail.put(&mut out);
        out
    }
}
