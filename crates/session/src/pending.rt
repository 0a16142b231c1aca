// `pending`: what an update would send now.
ghost use Rattle.std.specs.Prelude.{◌≡◌, List, ℕ};
ghost use Rattle.map.specs.Refusals.{numbers_of};
ghost use Rattle.session.specs.Run.{Does, pending_numbers, pending_effect};

use crate::Session;
use crate::outcomes::{Outcome, answered};
use host::Record;
use map::{Numbers, Refusal};
use script::Lent;
use update::Listed;

// The most bytes that the list of an update takes.
const LIST: usize = 1174;

// n and t of the list that an update of this record would write. Only an unsound record has none.
#[tactic(auto, using(crate::proofs::Effects::pending_listed, crate::proofs::Effects::pending_refused))]
fn pending_numbers(host: Record) -> Numbers
    ensures { result ≡ numbers_of (pending_numbers host) }
{
    match update::update_parts(host.lent(), &mut [0u8; LIST]) {
        Ok(Listed { n, t }) => map::with_value(n, t),
        Err(_) => map::number_alone(map::refusal_number(Refusal::Unsound) as usize),
    }
}

#[tactic(auto, unfolding(crate::specs::Run::answered, crate::specs::Run::pending_effect))]
pub(crate) fn pending(session: Session) -> Outcome
    ensures { (buffer : List ℕ) → Does result buffer (pending_effect session) }
{
    answered(
        Lent::Nothing,
        pending_numbers(session.world.host),
        0,
        session,
    )
}
