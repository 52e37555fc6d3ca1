// Where each field of a record stands, as paper 01's table has it: its first column, counted from 1, and how many columns it has. Columns
// that are always blank have no name. Assumes nothing.
#[derive(Clone, Copy)]
pub struct Field(pub usize, pub usize);

impl Field {
    // What both kinds of record begin with.
    pub const RECORD_TYPE: Field = Field(1, 1);

    pub const AREA: Field = Field(2, 3);

    pub const SECTION: Field = Field(5, 1);

    pub const AIRPORT: Field = Field(7, 4);

    pub const AIRPORT_ICAO: Field = Field(11, 2);

    pub const SUBSECTION: Field = Field(13, 1);

    pub const PROCEDURE: Field = Field(14, 6);

    pub const ROUTE_TYPE: Field = Field(20, 1);

    pub const TRANSITION: Field = Field(21, 5);

    pub const SEQUENCE: Field = Field(27, 3);

    pub const FIX: Field = Field(30, 5);

    pub const FIX_ICAO: Field = Field(35, 2);

    pub const FIX_SECTION: Field = Field(37, 1);

    pub const FIX_SUBSECTION: Field = Field(38, 1);

    pub const CONTINUATION: Field = Field(39, 1);

    // What a primary record has.
    pub const FIRST_DESCRIPTION: Field = Field(40, 1);

    pub const SECOND_DESCRIPTION: Field = Field(41, 1);

    pub const THIRD_DESCRIPTION: Field = Field(42, 1);

    pub const FOURTH_DESCRIPTION: Field = Field(43, 1);

    pub const TURN: Field = Field(44, 1);

    pub const RNP: Field = Field(45, 3);

    pub const TERMINATOR: Field = Field(48, 2);

    pub const TURN_VALID: Field = Field(50, 1);

    pub const NAVAID: Field = Field(51, 4);

    pub const NAVAID_ICAO: Field = Field(55, 2);

    pub const ARC_RADIUS: Field = Field(57, 6);

    pub const THETA: Field = Field(63, 4);

    pub const RHO: Field = Field(67, 4);

    pub const COURSE: Field = Field(71, 4);

    pub const DISTANCE: Field = Field(75, 4);

    pub const NAVAID_SECTION: Field = Field(79, 1);

    pub const NAVAID_SUBSECTION: Field = Field(80, 1);

    pub const ALTITUDE_DESCRIPTION: Field = Field(83, 1);

    pub const ATC: Field = Field(84, 1);

    pub const ALTITUDE: Field = Field(85, 5);

    pub const SECOND_ALTITUDE: Field = Field(90, 5);

    pub const TRANSITION_ALTITUDE: Field = Field(95, 5);

    pub const SPEED: Field = Field(100, 3);

    pub const VERTICAL_ANGLE: Field = Field(103, 4);

    pub const CENTRE_FIX: Field = Field(107, 5);

    pub const CENTRE_FIX_MULTIPLE: Field = Field(112, 1);

    pub const CENTRE_FIX_ICAO: Field = Field(113, 2);

    pub const CENTRE_FIX_SECTION: Field = Field(115, 1);

    pub const CENTRE_FIX_SUBSECTION: Field = Field(116, 1);

    pub const GPS: Field = Field(117, 1);

    pub const QUALIFIER: Field = Field(119, 1);

    pub const SECOND_QUALIFIER: Field = Field(120, 1);

    // What a continuation has.
    pub const APPLICATION: Field = Field(40, 1);

    pub const CONTENT: Field = Field(41, 83);

    // What both kinds end with.
    pub const RECORD_NUMBER: Field = Field(124, 5);

    pub const YEAR: Field = Field(129, 2);

    pub const CYCLE: Field = Field(131, 2);
}
