// A round of the four panels.
ghost use Rattle.std.specs.Prelude.{◌≡◌};
ghost use Rattle.session.specs.Run.{with_world};
ghost use Rattle.booth.specs.Booth.{panels_in, with_panels, rounded_booth, round_lent};

use crate::{Booth, BoothRounded};
use bus::{BusRequest, BusStepped};
use history::World;
use session::Session;
use std::array;

// The records and the chips of the four places.
fn panels_of(booth: Booth) -> [World; 4]
    ensures { result ≡ panels_in booth }
{
    array::from_fn(|place| booth.sessions[place].world)
}

// Another record and another chip; the ledger stays.
#[tactic(auto, unfolding(session::specs::Run::with_world))]
fn with_world(mut session: Session, world: World) -> Session
    ensures { result ≡ with_world session world }
{
    session.world = world;
    session
}

#[tactic(auto, unfolding(crate::specs::Booth::with_panels))]
fn with_panels(booth: Booth, panels: [World; 4]) -> Booth
    ensures { result ≡ with_panels booth panels }
{
    Booth {
        sessions: array::from_fn(|place| with_world(booth.sessions[place], panels[place])),
        current: booth.current,
    }
}

// A round with these marks and B. Its list goes to every chip of the bus, whichever panel is the current one.
pub fn round(booth: Booth, marks: usize, limit: usize, buffer: &mut [u8]) -> BoothRounded
    ensures value { result ≡ rounded_booth booth marks limit buffer.old }
    ensures buffer_after { buffer.new ≡ round_lent booth marks limit buffer.old }
{
    let request = BusRequest::Round {
        present: rounds::present_by(marks),
        limit,
    };
    let BusStepped { answer, panels } = bus::step(panels_of(booth), request, buffer);
    BoothRounded {
        numbers: history::call_numbers(answer),
        booth: with_panels(booth, panels),
    }
}
