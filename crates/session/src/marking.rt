// `marks`: what the record is marked as.
ghost use Rattle.std.specs.Prelude.{◌≡◌, List, ℕ};
ghost use Rattle.session.specs.Run.{Does, alone, marks_reply};

use crate::Session;
use crate::outcomes::{Outcome, alone};
use host::Header;
use replies::Reply;

#[tactic(auto, unfolding(crate::specs::Run::marks_reply))]
fn marks_reply(header: Header) -> Reply
    ensures { result ≡ marks_reply header }
{
    if host::is_locked(header) {
        Reply::Locked
    } else {
        Reply::Free
    }
}

#[tactic(auto, using(crate::specs::LengthLaws::marks_plain))]
pub(crate) fn marks(session: Session) -> Outcome
    ensures { (buffer : List ℕ) → Does result buffer (alone (marks_reply session.world.host.header) session) }
{
    alone(marks_reply(session.world.host.header), session)
}
