// What comes behind a record: whether it is the last leg of its route. What is looked at here is not judged. Assumes nothing of the caller.
ghost use Rattle.std.specs.Prelude.{◌≡◌};
ghost use Rattle.routes.specs.Sources.{records_at};
ghost use Rattle.routes.specs.Stages.{columns_to};
ghost use Rattle.routes.specs.Walk.{followed, ends_route};

use crate::{KEY, Texts};
use columns::Kind;
use slices::same;

// Whether a primary of the record's route comes among the records behind it, before one of another route. Continuations of the route are
// looked past.
fn followed<'a>(texts: Texts<'a>, behind: &[u32], rec: &[u8]) -> bool
    ensures { result ≡ followed (columns_to 25 rec.now) (records_at texts.entry.frozen.now texts.entry.log.now behind.now) }
{
    for &source in behind {
        let next = texts.record(source);
        if !same(rec, 0, next, 0, KEY) {
            return false;
        }
        match columns::kind_of(next) {
            Kind::Primary => return true,
            Kind::Continuation => {}
        }
    }
    false
}

// Whether the record is the last leg of its route, where the records of these sources come behind it.
#[tactic(auto, unfolding(crate::specs::Walk::ends_route))]
pub(crate) fn ends_route<'a>(texts: Texts<'a>, behind: &[u32], rec: &[u8]) -> bool
    ensures { result ≡ ends_route rec.now (records_at texts.entry.frozen.now texts.entry.log.now behind.now) }
{
    match columns::kind_of(rec) {
        Kind::Primary => !followed(texts, behind, rec),
        Kind::Continuation => false,
    }
}
