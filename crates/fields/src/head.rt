// What both kinds of record begin and end with: the route, the sequence number and the fix in columns 1-38, the file's record number
// and the cycle in columns 124-132. Assumes nothing of the caller.
ghost use Rattle.std.specs.Prelude.{◌≡◌};
ghost use Rattle.fields.specs.Pieces.{put_all};
ghost use Rattle.fields.specs.Head.{continues, route_of, fix_of, head_of, cycle_of, tail_of, route_pieces, place_pieces, head_pieces, tail_pieces};

use crate::numbers::{number_in, put_number};
use crate::part::Part;
use crate::text::{Letter, Text, byte_in, letter_in, put_byte, put_text, text_in, word_in};
use columns::field::Field;

// Columns 1-25, by which a route is known. Column 5 is always P.
#[derive(Clone, Copy, Debug, PartialEq, Eq)]
pub struct Route {
    pub record_type: u8,
    pub area: Text,
    pub airport: Text,
    pub icao: Text,
    pub subsection: u8,
    pub procedure: Text,
    pub route_type: u8,
    pub transition: Option<Text>,
}

// Columns 30-38. A navaid and a centre fix have the same parts, and types of their own, so that one can't be passed for another.
#[derive(Clone, Copy, Debug, PartialEq, Eq)]
pub struct Fix {
    pub identifier: Option<Text>,
    pub icao: Option<Text>,
    pub section: Option<Letter>,
    pub subsection: u8,
}

#[derive(Clone, Copy, Debug, PartialEq, Eq)]
pub struct Head {
    pub route: Route,
    pub sequence: u32,
    pub fix: Fix,
}

// The year's last two digits, and the number of the cycle in it.
#[derive(Clone, Copy, Debug, PartialEq, Eq)]
pub struct Cycle {
    pub year: u32,
    pub number: u32,
}

#[derive(Clone, Copy, Debug, PartialEq, Eq)]
pub struct Tail {
    pub record_number: u32,
    pub cycle: Cycle,
}

// Whether the number in column 39 is one of a continuation: 2 to 9, A to Z.
#[tactic(auto, unfolding(crate::specs::Head::continues, columns::specs::ByteSets::fits))]
pub(crate) fn is_continuation_number(b: u8) -> bool
    ensures { result ≡ continues b }
{
    ((b'2' <= b) & (b <= b'9')) | ((b'A' <= b) & (b <= b'Z'))
}

impl Route {
    #[tactic(auto, unfolding(crate::specs::Head::route_of))]
    fn of(rec: &[u8]) -> Route
        ensures { result ≡ route_of rec.now }
    {
        Route {
            record_type: byte_in(rec, Field::RECORD_TYPE),
            area: text_in(rec, Field::AREA),
            airport: text_in(rec, Field::AIRPORT),
            icao: text_in(rec, Field::AIRPORT_ICAO),
            subsection: byte_in(rec, Field::SUBSECTION),
            procedure: text_in(rec, Field::PROCEDURE),
            route_type: byte_in(rec, Field::ROUTE_TYPE),
            transition: word_in(rec, Field::TRANSITION),
        }
    }

    #[tactic(auto, unfolding(crate::specs::Pieces::put_all, crate::specs::Pieces::put, crate::specs::Head::route_pieces))]
    fn put(self, out: &mut [u8])
        ensures { out.new ≡ put_all (route_pieces self) out.old }
    {
        put_byte(out, Field::RECORD_TYPE, self.record_type);
        put_text(out, Field::AREA, self.area);
        put_byte(out, Field::SECTION, b'P');
        put_text(out, Field::AIRPORT, self.airport);
        put_text(out, Field::AIRPORT_ICAO, self.icao);
        put_byte(out, Field::SUBSECTION, self.subsection);
        put_text(out, Field::PROCEDURE, self.procedure);
        put_byte(out, Field::ROUTE_TYPE, self.route_type);
        self.transition.put(out, Field::TRANSITION);
    }
}

impl Fix {
    #[tactic(auto, unfolding(crate::specs::Head::fix_of))]
    fn of(rec: &[u8]) -> Fix
        ensures { result ≡ fix_of rec.now }
    {
        Fix {
            identifier: word_in(rec, Field::FIX),
            icao: word_in(rec, Field::FIX_ICAO),
            section: letter_in(rec, Field::FIX_SECTION),
            subsection: byte_in(rec, Field::FIX_SUBSECTION),
        }
    }
}

impl Head {
    #[tactic(auto, unfolding(crate::specs::Head::head_of))]
    pub(crate) fn of(rec: &[u8]) -> Head
        ensures { result ≡ head_of rec.now }
    {
        Head {
            route: Route::of(rec),
            sequence: number_in(rec, Field::SEQUENCE),
            fix: Fix::of(rec),
        }
    }

    // Columns 27-38.
    #[tactic(auto, unfolding(crate::specs::Pieces::put_all, crate::specs::Head::place_pieces))]
    fn put_place(self, out: &mut [u8])
        ensures { out.new ≡ put_all (place_pieces self) out.old }
    {
        let fix = self.fix;
        put_number(out, Field::SEQUENCE, self.sequence);
        fix.identifier.put(out, Field::FIX);
        fix.icao.put(out, Field::FIX_ICAO);
        fix.section.put(out, Field::FIX_SECTION);
        put_byte(out, Field::FIX_SUBSECTION, fix.subsection);
    }

    #[tactic(auto, using(crate::proofs::PutLaws::put_all_both), unfolding(crate::specs::Head::head_pieces))]
    pub(crate) fn put(self, out: &mut [u8])
        ensures { out.new ≡ put_all (head_pieces self) out.old }
    {
        self.route.put(out);
        self.put_place(out);
    }
}

impl Cycle {
    #[tactic(auto, unfolding(crate::specs::Head::cycle_of))]
    fn of(rec: &[u8]) -> Cycle
        ensures { result ≡ cycle_of rec.now }
    {
        Cycle {
            year: number_in(rec, Field::YEAR),
            number: number_in(rec, Field::CYCLE),
        }
    }
}

impl Tail {
    #[tactic(auto, unfolding(crate::specs::Head::tail_of))]
    pub(crate) fn of(rec: &[u8]) -> Tail
        ensures { result ≡ tail_of rec.now }
    {
        Tail {
            record_number: number_in(rec, Field::RECORD_NUMBER),
            cycle: Cycle::of(rec),
        }
    }

    #[tactic(auto, unfolding(crate::specs::Pieces::put_all, crate::specs::Head::tail_pieces))]
    pub(crate) fn put(self, out: &mut [u8])
        ensures { out.new ≡ put_all (tail_pieces self) out.old }
    {
        put_number(out, Field::RECORD_NUMBER, self.record_number);
        put_number(out, Field::YEAR, self.cycle.year);
        put_number(out, Field::CYCLE, self.cycle.number);
    }
}
