// The 23 path terminators, in the order of the standard's tables. Assumes nothing of the caller.
ghost use Rattle.std.specs.Prelude.{◌≡◌, ◌&&◌, ◌<◌, eqb, get_or};
ghost use Rattle.std.proofs.lemmas.List.Edits.{sets};
ghost use Rattle.slices.specs.Part.{member};
ghost use Rattle.slices.specs.Order.{equal};
ghost use Rattle.slices.specs.Search.{first_at};
ghost use Rattle.columns.specs.Words.{columns};
ghost use Rattle.leg.specs.Terminator.{terminator_number, name_of, found_at, terminator_at, terminator_of, needed, ends_at_fix, is_holding};

use columns::field::Field;
use slices::{byte_at, copy, has};

#[derive(Clone, Copy, Debug, PartialEq, Eq)]
pub enum Terminator {
    Af,
    Ca,
    Cd,
    Cf,
    Ci,
    Cr,
    Df,
    Fa,
    Fc,
    Fd,
    Fm,
    Ha,
    Hf,
    Hm,
    If,
    Pi,
    Rf,
    Tf,
    Va,
    Vd,
    Vi,
    Vm,
    Vr,
}

// The names, in the order of Attachment 5's tables 1.3 and 1.5 and beside their titles in 1.4: the one list by which a terminator is recognised, and
// line by line that of columns/specs/Terminators.antt.
const NAMES: [[u8; 2]; 23] = [
    *b"AF", // Arc to a Fix (Figure 14)
    *b"CA", // Course to an Altitude (Figure 9)
    *b"CD", // Course to a DME Distance (Figure 10)
    *b"CF", // Course to a Fix (Figure 3)
    *b"CI", // Course to an Intercept (Figure 11)
    *b"CR", // Course to a Radial termination (Figure 12)
    *b"DF", // Direct to a Fix (Figure 4)
    *b"FA", // Fix to an Altitude (Figure 5)
    *b"FC", // Track from a Fix from a Distance (Figure 6)
    *b"FD", // Track from a Fix to a DME Distance (Figure 7)
    *b"FM", // From a Fix to a Manual termination (Figure 8)
    *b"HA", // Racetrack Course Reversal, Altitude Termination (Figure 21)
    *b"HF", // Racetrack Course Reversal, Single circuit terminating at the fix (Figure 21)
    *b"HM", // Racetrack Course Reversal, Manual Termination (Figure 21)
    *b"IF", // Initial Fix (Figure 1)
    *b"PI", // 045/180 Procedure Turn (Figure 20)
    *b"RF", // Constant Radius Arc (Figure 13)
    *b"TF", // Track to a Fix (Figure 2)
    *b"VA", // Heading to an Altitude termination (Figure 15)
    *b"VD", // Heading to a DME Distance termination (Figure 16)
    *b"VI", // Heading to an Intercept (Figure 17)
    *b"VM", // Heading to a Manual termination (Figure 18)
    *b"VR", // Heading to a Radial termination (Figure 19)
];

// The place of a name in the list, or the list's length where it is none of them.
fn place_of(letters: [u8; 2]) -> usize
    ensures { result ≡ found_at letters }
{
    NAMES
        .iter()
        .position(|name| letters == *name)
        .unwrap_or(NAMES.len())
}

impl Terminator {
    // The column in which a record has its terminator, and the columns of the fields that a leg may need.
    pub const COLUMN: usize = Field::TERMINATOR.0;

    pub const FIX: Field = Field::FIX;

    pub const TURN: Field = Field::TURN;

    pub const NAVAID: Field = Field::NAVAID;

    pub const ARC_RADIUS: Field = Field::ARC_RADIUS;

    pub const THETA: Field = Field::THETA;

    pub const RHO: Field = Field::RHO;

    pub const COURSE: Field = Field::COURSE;

    pub const DISTANCE: Field = Field::DISTANCE;

    pub const ALTITUDE: Field = Field::ALTITUDE;

    pub const SECOND_ALTITUDE: Field = Field::SECOND_ALTITUDE;

    pub const CENTRE_FIX: Field = Field::CENTRE_FIX;

    // The column at which a record's terminator begins.
    pub fn column() -> usize
        ensures { result ≡ 48 }
    {
        Terminator::COLUMN
    }

    // The 23, in the order of their names.
    const ALL: [Terminator; 23] = [
        Terminator::Af,
        Terminator::Ca,
        Terminator::Cd,
        Terminator::Cf,
        Terminator::Ci,
        Terminator::Cr,
        Terminator::Df,
        Terminator::Fa,
        Terminator::Fc,
        Terminator::Fd,
        Terminator::Fm,
        Terminator::Ha,
        Terminator::Hf,
        Terminator::Hm,
        Terminator::If,
        Terminator::Pi,
        Terminator::Rf,
        Terminator::Tf,
        Terminator::Va,
        Terminator::Vd,
        Terminator::Vi,
        Terminator::Vm,
        Terminator::Vr,
    ];

    // Its place in the order of the 23, from 0 on.
    #[tactic(auto, unfolding(crate::specs::Terminator::terminator_number))]
    pub fn number(self) -> usize
        ensures { (result ≡ terminator_number self) × (result < 23) }
    {
        self as usize
    }

    #[tactic(auto, unfolding(crate::specs::Terminator::terminator_at, crate::specs::Terminator::in_order))]
    fn at(n: usize) -> Terminator
        ensures { result ≡ terminator_at n }
    {
        Terminator::ALL.get(n).copied().unwrap_or(Terminator::Vr)
    }

    // The terminator in columns 48 and 49 of a record; VR where they hold none, which is refused by 3 before anything asks.
    #[tactic(auto, using(crate::proofs::TerminatorLaws::found), unfolding(slices::specs::Part::part))]
    pub fn of(rec: &[u8]) -> Terminator
        ensures { result ≡ terminator_of (columns 48 49 rec.now) }
    {
        let letters = [
            byte_at(rec, Terminator::COLUMN - 1),
            byte_at(rec, Terminator::COLUMN),
        ];
        Terminator::at(place_of(letters))
    }

    // Puts the terminator's two letters into columns 48 and 49 of a record.
    pub fn put(self, out: &mut [u8])
        ensures { out.new ≡ sets out.old 47 (name_of self) }
    {
        let n = self.number();
        copy(&NAMES[n], 0, out, Terminator::column() - 1, 2);
    }

    // The letters of the fields that a leg of this kind needs: F fix, T turn, N navaid, X arc radius, H theta, R rho, C course, D distance, A first
    // altitude, O centre fix.
    #[tactic(auto, unfolding(crate::specs::Terminator::needed, crate::specs::Terminator::needs, columns::specs::Patterns::codes))]
    fn letters(self) -> &'static [u8]
        ensures { result.now ≡ needed self }
    {
        match self {
            Terminator::Af => b"FTNHRC",
            Terminator::Ca => b"CA",
            Terminator::Cd => b"NCD",
            Terminator::Cf => b"FNHRCD",
            Terminator::Ci => b"C",
            Terminator::Cr => b"NHC",
            Terminator::Df => b"F",
            Terminator::Fa => b"FNHRCA",
            Terminator::Fc => b"FNHRCD",
            Terminator::Fd => b"FNHRCD",
            Terminator::Fm => b"FNHRC",
            Terminator::Ha => b"FTCDA",
            Terminator::Hf => b"FTCD",
            Terminator::Hm => b"FTCD",
            Terminator::If => b"F",
            Terminator::Pi => b"FTNHRCDA",
            Terminator::Rf => b"FTDXO",
            Terminator::Tf => b"F",
            Terminator::Va => b"CA",
            Terminator::Vd => b"NCD",
            Terminator::Vi => b"C",
            Terminator::Vm => b"C",
            Terminator::Vr => b"NHC",
        }
    }

    // Whether a leg of this kind needs the field of the letter.
    pub fn needed(self, letter: u8) -> bool
        ensures { result ≡ member letter (needed self) }
    {
        self.letters().contains(&letter)
    }

    // Whether the leg ends at a fix.
    #[tactic(auto, using(crate::proofs::TerminatorLaws::ends, crate::proofs::TerminatorLaws::ends_not))]
    pub fn ends_at_fix(self) -> bool
        ensures { result ≡ ends_at_fix self }
    {
        matches!(
            self,
            Terminator::If
                | Terminator::Tf
                | Terminator::Cf
                | Terminator::Df
                | Terminator::Af
                | Terminator::Rf
                | Terminator::Ha
                | Terminator::Hf
                | Terminator::Hm
        )
    }

    // Whether the leg is a holding.
    #[tactic(auto, using(crate::proofs::TerminatorLaws::holds, crate::proofs::TerminatorLaws::holds_not))]
    pub fn is_holding(self) -> bool
        ensures { result ≡ is_holding self }
    {
        matches!(self, Terminator::Ha | Terminator::Hf | Terminator::Hm)
    }
}
