// Refusals: a number, a place and a column, as paper 01's table has them. A function for each of its cases makes the refusal, so that
// a case's number, and what its place and column count, are said here alone. Assumes nothing of the caller.
#![tactic(auto)]

ghost use Rattle.std.specs.Prelude.{◌≡◌, ◌∷◌, ◌++◌, Some};
ghost use Rattle.std.specs.Fmt.{decimal};
ghost use Rattle.refusals.specs.Table.{
  refusal,
  cut_short,
  too_many_records,
  field_content,
  companion_blank,
  needed_blank,
  continuation_number,
  continuation_head,
  route_not_later,
  sequence_not_risen,
  leg_pair,
  leg_ending,
  log_line,
  does_not_apply,
  route_refused,
  not_in_log,
  log_too_long,
  too_many_corrections,
  no_room,
  buffer_too_short,
  stated,
};

use std::fmt;

// How many records a file has at most, and the place of the first that is too many.
pub const MOST_RECORDS: usize = 480;

const RECORD_TOO_MANY: usize = MOST_RECORDS + 1;

// The number is a byte and no enum: whoever takes a refusal takes one with any number, and theorems say which numbers a stage gives, from one
// to another.
#[derive(Clone, Copy, Debug, PartialEq, Eq)]
pub struct Refusal {
    pub number: u8,
    pub place: usize,
    pub column: usize,
}

// What judging says: nothing where it accepts, and otherwise the refusal.
pub type Verdict = Result<(), Refusal>;

impl Refusal {
    pub const CUT_SHORT: u8 = 1;

    pub const TOO_MANY_RECORDS: u8 = 2;

    pub const FIELD_CONTENT: u8 = 3;

    pub const COMPANION_BLANK: u8 = 4;

    pub const NEEDED_BLANK: u8 = 5;

    pub const CONTINUATION: u8 = 6;

    pub const ORDER: u8 = 7;

    pub const LEG: u8 = 8;

    pub const LOG_LINE: u8 = 9;

    pub const DOES_NOT_APPLY: u8 = 10;

    pub const ROUTE_REFUSED: u8 = 11;

    pub const NOT_IN_LOG: u8 = 12;

    pub const LOG_LIMIT: u8 = 13;

    pub const BUFFER_TOO_SHORT: u8 = 14;

    fn of(number: u8, place: usize, column: usize) -> Refusal
        ensures { result ≡ refusal number place column }
    {
        Refusal {
            number,
            place,
            column,
        }
    }

    // The record ends too early, or its byte 133 is no line feed.
    pub fn cut_short(place: usize, column: usize) -> Refusal
        ensures { result ≡ cut_short place column }
    {
        Refusal::of(Refusal::CUT_SHORT, place, column)
    }

    // The file holds more than 480 full records, or 480 and a tail.
    pub fn too_many_records() -> Refusal
        ensures { result ≡ too_many_records }
    {
        Refusal::of(Refusal::TOO_MANY_RECORDS, RECORD_TOO_MANY, 0)
    }

    // The field that the column is in holds nothing legal: the bad byte in a record that is read, the first column in one that parts make.
    pub fn field_content(place: usize, column: usize) -> Refusal
        ensures { result ≡ field_content place column }
    {
        Refusal::of(Refusal::FIELD_CONTENT, place, column)
    }

    // A companion of a filled field is blank.
    pub fn companion_blank(place: usize, column: usize) -> Refusal
        ensures { result ≡ companion_blank place column }
    {
        Refusal::of(Refusal::COMPANION_BLANK, place, column)
    }

    // A field that the leg needs is blank.
    pub fn needed_blank(place: usize, column: usize) -> Refusal
        ensures { result ≡ needed_blank place column }
    {
        Refusal::of(Refusal::NEEDED_BLANK, place, column)
    }

    // The continuation of the last record is missing, and the place is the one behind that record.
    pub fn continuation_number(place: usize) -> Refusal
        ensures { result ≡ continuation_number place }
    {
        Refusal::of(Refusal::CONTINUATION, place, 39)
    }

    // The record is no right continuation, or stands where a continuation has to come. The column is 39 for a number that is not the next
    // one and for a primary in a continuation's stead, else the first of 1 to 38 in which a continuation differs from its primary.
    pub fn continuation_head(place: usize, column: usize) -> Refusal
        ensures { result ≡ continuation_head place column }
    {
        Refusal::of(Refusal::CONTINUATION, place, column)
    }

    // The route is not later than the one before it.
    pub fn route_not_later(place: usize) -> Refusal
        ensures { result ≡ route_not_later place }
    {
        Refusal::of(Refusal::ORDER, place, 1)
    }

    // The sequence number has not risen within its route.
    pub fn sequence_not_risen(place: usize) -> Refusal
        ensures { result ≡ sequence_not_risen place }
    {
        Refusal::of(Refusal::ORDER, place, 27)
    }

    // The leg can't begin a route, or can't follow the leg before it.
    pub fn leg_pair(place: usize) -> Refusal
        ensures { result ≡ leg_pair place }
    {
        Refusal::of(Refusal::LEG, place, 48)
    }

    // The leg can't end its route.
    pub fn leg_ending(place: usize) -> Refusal
        ensures { result ≡ leg_ending place }
    {
        Refusal::of(Refusal::LEG, place, 49)
    }

    // From the column on the line can't be completed to a legal one.
    pub fn log_line(place: usize, column: usize) -> Refusal
        ensures { result ≡ log_line place column }
    {
        Refusal::of(Refusal::LOG_LINE, place, column)
    }

    // A D line finds no such record, or an A line finds the place taken.
    pub fn does_not_apply(place: usize) -> Refusal
        ensures { result ≡ does_not_apply place }
    {
        Refusal::of(Refusal::DOES_NOT_APPLY, place, 0)
    }

    // A route that the correction touches is refused after it; the column is that refusal's number.
    pub fn route_refused(place: usize, number: u8) -> Refusal
        ensures { result ≡ route_refused place number }
    {
        Refusal::of(Refusal::ROUTE_REFUSED, place, number as usize)
    }

    // The wanted number at the index, counted from 1, is 0 or past the last correction.
    pub fn not_in_log(place: usize) -> Refusal
        ensures { result ≡ not_in_log place }
    {
        Refusal::of(Refusal::NOT_IN_LOG, place, 0)
    }

    // The log is longer than 60,000 bytes.
    pub fn log_too_long() -> Refusal
        ensures { result ≡ log_too_long }
    {
        Refusal::of(Refusal::LOG_LIMIT, 0, 0)
    }

    // Correction 201 begins at the line.
    pub fn too_many_corrections(place: usize) -> Refusal
        ensures { result ≡ too_many_corrections place }
    {
        Refusal::of(Refusal::LOG_LIMIT, place, 0)
    }

    // The A line brings frozen records and A lines together past 480.
    pub fn no_room(place: usize) -> Refusal
        ensures { result ≡ no_room place }
    {
        Refusal::of(Refusal::LOG_LIMIT, place, 0)
    }

    // The lent buffer can't hold the answer.
    pub fn buffer_too_short() -> Refusal
        ensures { result ≡ buffer_too_short }
    {
        Refusal::of(Refusal::BUFFER_TOO_SHORT, 0, 0)
    }
}

// The number, the place and the column, parted by tabs.
impl fmt::Display for Refusal {
    ghost output = { λ r. Some (decimal r.number ++ 9 ∷ decimal r.place ++ 9 ∷ decimal r.column) };

    fn fmt<W: fmt::Write>(&self, f: &mut fmt::Formatter<W>) -> fmt::Result {
        let Refusal {
            number,
            place,
            column,
        } = *self;
        write!(f, "{number}\t{place}\t{column}")
    }
}

// What a verdict says: its refusal's number, place and column, and 0, 0, 0 where it accepts.
pub fn stated(verdict: Verdict) -> Refusal
    ensures { result ≡ stated verdict }
{
    match verdict {
        Ok(()) => Refusal::of(0, 0, 0),
        Err(r) => r,
    }
}
