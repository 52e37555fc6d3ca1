// Which leg may begin and which may end a route of which kind, and which may follow which: Attachment 5's tables, as specs/LegTable sets
// them out. Assumes nothing of the caller.
ghost use Rattle.std.specs.Prelude.{◌≡◌, ◌+◌, ◌*◌, ◌<◌, ◌≤◌, eqb, get_or};
ghost use Rattle.slices.specs.Search.{first_at};
ghost use Rattle.columns.specs.Rows.{byte_in};
ghost use Rattle.leg.specs.Terminator.{terminator_number};
ghost use Rattle.routes.specs.Pairs.{terminator_in, kind_lines, of_line, kind_number, first_leg, last_leg, pair};

use columns::field::Field;
use leg::terminator::Terminator;
use slices::{byte_at, has};

// How many terminators there are, and how many kinds of route; how many bytes the line of a kind has, and how many of them are types.
const LEGS: usize = 23;

const KIND_COUNT: usize = 9;

const KIND_WIDTH: usize = 19;

const MOST_TYPES: usize = KIND_WIDTH - 1;

// In these three tables a cell is + where a leg may stand and - where not. The legs are in the order of the terminators:
// AF CA CD CF CI CR DF FA FC FD FM HA HF HM IF PI RF TF VA VD VI VM VR.

// A line for each leg, a cell for each that may come behind it.
const PAIRS: [u8; 529] = *b"\
    ++++++++++++++-++++++++\
    +++++++-----------+++++\
    +++++++-----------+++++\
    ++++++++++++++-++++++++\
    +++++++-----------+++++\
    +++++++-----------+++++\
    ++++++++++++++-++++++++\
    +++++++-----------+++++\
    +++++++-----------+++++\
    +++++++-----------+++++\
    +++++++-----------+++++\
    ++++++++++++++-++++++++\
    ++++++++++++++-++++++++\
    ++++++++++++++-++++++++\
    +++++++++++++++++++++++\
    +++++++-----------+++++\
    ++++++++++++++-++++++++\
    ++++++++++++++-++++++++\
    +++++++-----------+++++\
    +++++++-----------+++++\
    +++++++-----------+++++\
    +++++++-----------+++++\
    +++++++-----------+++++";

// A line for each kind of route, a cell for each leg: whether it may begin a route of that kind, and whether it may end one.
const BEGINNINGS: [u8; 207] = *b"\
    -++++++++++-------+++++\
    -++++++++++---+---+++++\
    -------+++----+--------\
    --------++----+--------\
    --------++----+--------\
    --------++--+-+--------\
    --------++--+-++-------\
    --------------+--------\
    ++++++++++++-+--+-+++++";

const ENDINGS: [u8; 207] = *b"\
    +--+--+---++-+---+---+-\
    +--+--+----+--+--+-----\
    +--+--+----+-----+-----\
    +--+--+----+-----+-----\
    +--+--+---+---+--+---+-\
    +--+------+-++---+---+-\
    +--++-------++-+++--+--\
    ++-+--+---+--+---++--+-\
    ++-+--+---+--+---++--+-";

// For each kind of route the subsection, and the route types with blanks behind them.
const KINDS: [u8; 171] = *b"\
    D014FT             \
    D25M               \
    D36SV              \
    E147F              \
    E258M              \
    E369S              \
    FA                 \
    FBEFGIJKLMNPRTUVWXY\
    FZ                 ";

// The columns of a record's subsection and route type.
const SUBSECTION: usize = Field::SUBSECTION.0;

const ROUTE_TYPE: usize = Field::ROUTE_TYPE.0;

// The first of nine lines of a table that is of a record's subsection and route type, or 9 where none is.
fn kind_among(kinds: &[u8], rec: &[u8]) -> usize
    ensures { result ≡ first_at (of_line kinds.now (byte_in 13 rec.now) (byte_in 20 rec.now)) kind_lines }
{
    let subsection = byte_at(rec, SUBSECTION - 1);
    let route_type = byte_at(rec, ROUTE_TYPE - 1);
    for i in 0..KIND_COUNT {
        let at = i * KIND_WIDTH;
        if byte_at(kinds, at) == subsection
            && route_type != b' '
            && has(kinds, at + 1, MOST_TYPES, route_type)
        {
            return i;
        }
    }
    KIND_COUNT
}

// The place of the kind of a record's route among the nine. It is 9 where it is of none, which is refused by 3 before anything asks: no table
// has a line there, so none of its cells is marked.
fn kind_number(rec: &[u8]) -> usize
    ensures { (result ≡ kind_number rec.now) × (result ≤ 9) }
{
    kind_among(&KINDS, rec)
}

// Whether the cell of a leg is marked in a line of a table.
fn is_marked(table: &[u8], line: usize, t: Terminator) -> bool
    requires { line < 23 }
    ensures { result ≡ eqb (get_or table.now (line * 23 + terminator_number t) 0) 43 }
{
    byte_at(table, line * LEGS + t.number()) == b'+'
}

// Whether a leg of u may follow a leg of t within a route.
pub(crate) fn pair(t: Terminator, u: Terminator) -> bool
    ensures { result ≡ pair t u }
{
    is_marked(&PAIRS, t.number(), u)
}

// A record as the tables of kinds have it: by the kind of its route and its terminator, each of which is looked up once.
#[derive(Clone, Copy)]
pub(crate) struct Leg<'a> {
    pub(crate) rec: &'a [u8],
    pub(crate) kind: usize,
    pub(crate) terminator: Terminator,
    ghost kind_is: { kind ≡ kind_number rec.now },
    ghost kind_within: { kind ≤ 9 },
    ghost terminator_is: { terminator ≡ terminator_in rec.now },
}

impl<'a> Leg<'a> {
    pub(crate) fn of(rec: &'a [u8]) -> Leg<'a>
        ensures { result.rec.now ≡ rec.now }
    {
        Leg {
            rec,
            kind: kind_number(rec),
            terminator: Terminator::of(rec),
        }
    }

    // Whether it may be the first leg of its route, and whether it may be the last.
    pub(crate) fn may_begin(self) -> bool
        ensures { result ≡ first_leg self.entry.rec.now }
    {
        is_marked(&BEGINNINGS, self.kind, self.terminator)
    }

    pub(crate) fn may_end(self) -> bool
        ensures { result ≡ last_leg self.entry.rec.now }
    {
        is_marked(&ENDINGS, self.kind, self.terminator)
    }
}
