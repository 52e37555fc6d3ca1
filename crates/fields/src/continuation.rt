// The parts of a continuation; its 83 bytes in columns 41-123 stand beside them, as an array. Assumes nothing of the caller.
ghost use Rattle.std.specs.Prelude.{◌≡◌};
ghost use Rattle.columns.specs.Words.{columns};
ghost use Rattle.fields.specs.Pieces.{put_all};
ghost use Rattle.fields.specs.Continuation.{continuation_of, application_pieces, render_continuation};

use crate::head::{Head, Tail, is_continuation_number};
use crate::part::Part;
use crate::text::{Letter, byte_in, letter_in, put_if};
use columns::field::Field;
use slices::copy;

// How many bytes of a record stand before the 83.
const START: usize = Field::CONTENT.0 - 1;

#[derive(Clone, Copy, Debug, PartialEq, Eq)]
pub struct Continuation {
    pub head: Head,
    pub number: u8,
    pub application: Option<Letter>,
    pub tail: Tail,
}

// The 83 bytes of a record.
#[tactic(auto, using(crate::proofs::ReadLaws::copied_whole, slices::proofs::PartLaws::length_part))]
pub fn content_of(rec: &[u8]) -> [u8; 83]
    ensures { result ≡ columns 41 123 rec.now }
{
    let mut content = [0u8; 83];
    copy(rec, START, &mut content, 0, 83);
    content
}

impl Continuation {
    // The parts of a record that was judged.
    #[tactic(auto, unfolding(crate::specs::Continuation::continuation_of))]
    pub fn of(rec: &[u8]) -> Continuation
        ensures { result ≡ continuation_of rec.now }
    {
        Continuation {
            head: Head::of(rec),
            number: byte_in(rec, Field::CONTINUATION),
            application: letter_in(rec, Field::APPLICATION),
            tail: Tail::of(rec),
        }
    }

    // Columns 39-123.
    #[tactic(auto, unfolding(crate::specs::Pieces::put_all, crate::specs::Pieces::put, crate::specs::Continuation::application_pieces))]
    fn put_application(self, content: [u8; 83], out: &mut [u8])
        ensures { out.new ≡ put_all (application_pieces self content) out.old }
    {
        put_if(
            out,
            Field::CONTINUATION,
            is_continuation_number(self.number),
            self.number,
        );
        self.application.put(out, Field::APPLICATION);
        copy(&content, 0, out, START, 83);
    }

    // The record of the continuation, whether it is legal or not.
    #[tactic(auto, using(crate::proofs::PutLaws::put_all_both), unfolding(crate::specs::Continuation::render_continuation, crate::specs::Continuation::continuation_pieces))]
    pub fn render(self, content: [u8; 83]) -> [u8; 132]
        ensures { result ≡ render_continuation self content }
    {
        let mut out = [b' '; 132];
        self.head.put(&mut out);
        self.put_application(content, &mut out);
        self.tail.put(&mut out);
        out
    }
}
