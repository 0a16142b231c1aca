// `open`.
ghost use Rattle.std.specs.Prelude.{◌≡◌, List, ℕ};
ghost use Rattle.session.specs.Run.{Does, opened_session, open_effect};

use crate::Session;
use crate::outcomes::{Outcome, numbered};
use history::World;

#[tactic(auto, unfolding(crate::specs::Run::opened_session))]
pub(crate) fn opened(member: usize, bus: usize, pins: usize) -> Session
    ensures { result ≡ opened_session member bus pins }
{
    Session {
        world: World {
            host: host::open(member, bus, pins).host,
            chip: chip::at_reset(member, bus, pins).chip,
        },
        ledger: Some(history::opened_ledger(member)),
    }
}

#[tactic(auto, unfolding(crate::specs::Run::open_effect, map::specs::Refusals::opens))]
pub(crate) fn open(session: Session, member: usize, bus: usize, pins: usize) -> Outcome
    ensures { (buffer : List ℕ) → Does result buffer (open_effect session member bus pins) }
{
    let answer = map::open_answer(member, bus, pins);
    let after = match answer {
        Ok(()) => opened(member, bus, pins),
        Err(_) => session,
    };
    numbered(answer, after)
}
