// The turn of a leg. Assumes nothing of the caller, but that a turn's field is one that `Part` puts into.
ghost use Rattle.std.specs.Prelude.{◌≡◌};
ghost use Rattle.columns.specs.Words.{columns};
ghost use Rattle.fields.specs.Turn.{turn_of, bytes_of_turn};

use crate::part::Part;
use crate::text::{byte_in, put_byte};
use columns::field::Field;

#[derive(Clone, Copy, Debug, PartialEq, Eq)]
pub enum Turn {
    Left,
    Right,
    Either,
}

impl Turn {
    // The turn in column 44.
    #[tactic(auto, unfolding(crate::specs::Turn::turn_of, slices::specs::Part::part))]
    pub(crate) fn of(rec: &[u8]) -> Option<Turn>
        ensures { result ≡ turn_of (columns 44 44 rec.now) }
    {
        match byte_in(rec, Field::TURN) {
            b'L' => Some(Turn::Left),
            b'R' => Some(Turn::Right),
            b'E' => Some(Turn::Either),
            _ => None,
        }
    }
}

impl Part for Turn {
    ghost bytes = { λ w v. bytes_of_turn v };

    #[tactic(auto, unfolding(crate::specs::Turn::bytes_of_turn))]
    fn put(self, out: &mut [u8], field: Field) {
        match self {
            Turn::Left => put_byte(out, field, b'L'),
            Turn::Right => put_byte(out, field, b'R'),
            Turn::Either => put_byte(out, field, b'E'),
        }
    }
}
