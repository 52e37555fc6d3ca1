// What is put into a field: a text, a letter, a turn, a number in its unit. What may be absent is an `Option` of it: absent is a field of
// blanks, in which nothing is put. Assumes of its callers, all in this crate, that a field lies within a record and has at most six columns.
ghost use Rattle.std.specs.Prelude.{◌≡◌, ℕ, ◌≤◌, List};
ghost use Rattle.fields.specs.Pieces.{fill};
ghost use Rattle.fields.specs.Optional.{optional_bytes};

use columns::field::Field;

pub(crate) trait Part: Copy {
    // The bytes of a part, in a field of so many columns.
    ghost bytes: { ℕ → Self → List ℕ };

    // Puts the part into a field; one that the field can't hold leaves a byte 0, which is legal nowhere. Where the field lies is asked for, here
    // and by the readers of numbers, and not kept in its type: `Field` is public, and it and `field` in specs/ are of any two numbers.
    fn put(self, out: &mut [u8], field: Field)
        requires { (field.0 ≤ 132) × (field.1 ≤ 6) }
        ensures { out.new ≡ fill field (bytes field.1 self) out.old };
}

impl<P: Part> Part for Option<P> {
    ghost bytes = { λ w. optional_bytes (P.bytes w) };

    #[tactic(auto, unfolding(crate::specs::Optional::optional_bytes, crate::specs::Pieces::put))]
    fn put(self, out: &mut [u8], field: Field) {
        if let Some(part) = self {
            part.put(out, field);
        }
    }
}
