// Text as bytes by value, and a letter; both may be absent. They may have any bytes: those that no legal record holds are refused when
// they are written. Assumes of its callers, all in this crate, that a field of text has at most six columns.
ghost use Rattle.std.specs.Prelude.{◌≡◌, [], ◌∷◌, ◌+◌, ◌-◌, ◌≤◌, get_or};
ghost use Rattle.slices.specs.Part.{blank};
ghost use Rattle.columns.specs.Rows.{byte_in, field_at};
ghost use Rattle.columns.specs.Fields.{bytes_in};
ghost use Rattle.fields.specs.Pieces.{or_zero, fill};
ghost use Rattle.fields.specs.Text.{text_of, text_bytes, word_of, bytes_of_word, letter_of, bytes_of_letter};

use crate::part::Part;
use columns::field::Field;
use slices::{byte_after, byte_at, copy, is_blank, put_after};

// Up to six bytes from the left, blanks behind them. Six fields and no array: the theorems on writing (`leg_written`) speak of every text, and
// of an array they would have to say besides that it has six bytes.
#[derive(Clone, Copy, Debug, PartialEq, Eq)]
pub struct Text(pub u8, pub u8, pub u8, pub u8, pub u8, pub u8);

// A letter or digit.
#[derive(Clone, Copy, Debug, PartialEq, Eq)]
pub struct Letter(pub u8);

// Where a field begins, counted from 0. One at column 0, which is none, begins there too, so that no reader has to ask for another.
pub(crate) fn start(field: Field) -> usize
    ensures { result ≡ field.0 - 1 }
{
    field.0.saturating_sub(1)
}

// The byte in a field's first column.
pub(crate) fn byte_in(rec: &[u8], field: Field) -> u8
    ensures { result ≡ byte_in field.0 rec.now }
{
    byte_at(rec, start(field))
}

// The byte past the first k columns of a field.
pub(crate) fn byte_within(rec: &[u8], field: Field, k: usize) -> u8
    ensures { result ≡ get_or rec.now (field.0 - 1 + k) 0 }
{
    byte_after(rec, start(field), k)
}

// Whether a field is blank.
pub(crate) fn blank_in(rec: &[u8], field: Field) -> bool
    ensures { result ≡ blank (bytes_in field rec.now) }
{
    is_blank(rec, start(field), field.1)
}

// A byte of a field, and a blank past it.
#[tactic(auto, using(crate::proofs::ReadLaws::with_blanks_within, crate::proofs::ReadLaws::with_blanks_past))]
fn byte_or_blank(rec: &[u8], field: Field, k: usize) -> u8
    ensures { result ≡ get_or (bytes_in field rec.now) k 32 }
{
    if k < field.1 {
        byte_within(rec, field, k)
    } else {
        b' '
    }
}

// Puts a byte.
#[tactic(auto, unfolding(crate::specs::Pieces::put))]
pub(crate) fn put_byte(out: &mut [u8], field: Field, b: u8)
    ensures { out.new ≡ fill field (b ∷ []) out.old }
{
    put_after(out, start(field), 0, b);
}

// Puts a byte that is right in its column; one that is not leaves a byte 0, which is legal nowhere.
pub(crate) fn put_if(out: &mut [u8], field: Field, right: bool, b: u8)
    ensures { out.new ≡ fill field (or_zero right (b ∷ [])) out.old }
{
    if right {
        put_byte(out, field, b);
    } else {
        put_byte(out, field, 0);
    }
}

// The text in a field.
#[tactic(auto, unfolding(crate::specs::Text::text_of))]
pub(crate) fn text_in(rec: &[u8], field: Field) -> Text
    ensures { result ≡ text_of (bytes_in field rec.now) }
{
    Text(
        byte_or_blank(rec, field, 0),
        byte_or_blank(rec, field, 1),
        byte_or_blank(rec, field, 2),
        byte_or_blank(rec, field, 3),
        byte_or_blank(rec, field, 4),
        byte_or_blank(rec, field, 5),
    )
}

// Puts a text that may be blank; one that is longer than its field leaves a byte 0, which is legal nowhere.
#[tactic(auto, unfolding(crate::specs::Text::text_bytes, crate::specs::Text::bytes_of, crate::specs::Pieces::put))]
pub(crate) fn put_text(out: &mut [u8], field: Field, text: Text)
    requires { field.1 ≤ 6 }
    ensures { out.new ≡ fill field (text_bytes field.1 text) out.old }
{
    let bytes = [text.0, text.1, text.2, text.3, text.4, text.5];
    if is_blank(&bytes, field.1, 6 - field.1) {
        copy(&bytes, 0, out, start(field), field.1);
    } else {
        put_byte(out, field, 0);
    }
}

// The text in a field that may be blank.
#[tactic(auto, unfolding(crate::specs::Optional::unless_blank))]
pub(crate) fn word_in(rec: &[u8], field: Field) -> Option<Text>
    ensures { result ≡ word_of (bytes_in field rec.now) }
{
    if blank_in(rec, field) {
        None
    } else {
        Some(text_in(rec, field))
    }
}

// The letter in a field that may be blank.
#[tactic(auto, unfolding(crate::specs::Optional::unless_blank, slices::specs::Part::part, slices::specs::Part::blank))]
pub(crate) fn letter_in(rec: &[u8], field: Field) -> Option<Letter>
    ensures { result ≡ letter_of (field_at field.0 1 rec.now) }
{
    match byte_in(rec, field) {
        b' ' => None,
        b => Some(Letter(b)),
    }
}

// A text of blanks alone leaves a byte 0: reading would find it absent.
impl Part for Text {
    ghost bytes = { bytes_of_word };

    #[tactic(auto, unfolding(crate::specs::Text::bytes_of_word, crate::specs::Text::bytes_of, slices::specs::Part::part))]
    fn put(self, out: &mut [u8], field: Field) {
        let bytes = [self.0, self.1, self.2, self.3, self.4, self.5];
        if is_blank(&bytes, 0, 6) {
            put_byte(out, field, 0);
        } else {
            put_text(out, field, self);
        }
    }
}

// A blank leaves a byte 0: reading would find it absent.
impl Part for Letter {
    ghost bytes = { λ w v. bytes_of_letter v };

    #[tactic(auto, unfolding(crate::specs::Text::bytes_of_letter))]
    fn put(self, out: &mut [u8], field: Field) {
        put_if(out, field, self.0 != b' ', self.0);
    }
}
