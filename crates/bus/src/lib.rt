// Four panels on one bus: a round sends each present chip a part of what waits for it, and one bus call after the other on the records
// and the chips of the four places.
//
// A chip of the bus is on I2C and has its place for its pins. The list of an accepted round is fed to every such chip, present or not: what
// is for other pins passes by. The crate bus_demand has the claim about whole lists of bus calls.
#![tactic(auto)]

mod hearing;

ghost use Rattle.std.specs.Prelude.{◌≡◌, length};
ghost use Rattle.rounds.specs.Round.{present_at, round_buffer};
ghost use Rattle.bus.specs.Bus.{hosts_of, world_at, records_in, call_of, bus_lent, rounded_of, stepped_of};

use calls::Request;
use history::{CallAnswer, Stepped, World};
use host::Record;
use rounds::Rounded;
use std::array;
use update::ListAnswer;

// What a round answers, and the records and the chips of the four places after it.
#[derive(Clone, Copy)]
pub struct BusRounded {
    pub answer: ListAnswer,
    pub panels: [World; 4],
}

// A call at one place, where 3 and every number above it is the last one, or a round.
#[derive(Clone, Copy)]
pub enum BusRequest {
    Plain { place: usize, request: Request },
    Round { present: [bool; 4], limit: usize },
}

// What a bus call answers, and the panels after it.
#[derive(Clone, Copy)]
pub struct BusStepped {
    pub answer: CallAnswer,
    pub panels: [World; 4],
}

fn records_in(panels: [World; 4]) -> [Record; 4]
    ensures { result ≡ records_in panels }
{
    array::from_fn(|place| panels[place].host)
}

// A round over the records of the four places. The list that it answers is fed at once to every chip of the bus.
pub fn round(panels: [World; 4], present: [bool; 4], limit: usize, buffer: &mut [u8]) -> BusRounded
    ensures value { result ≡ rounded_of panels (present_at present) limit (length buffer.old) }
    ensures buffer_after { buffer.new ≡ round_buffer (present_at present) (hosts_of (world_at panels)) limit buffer.old }
{
    let Rounded { answer, records } = rounds::round(records_in(panels), present, limit, buffer);
    BusRounded {
        answer,
        panels: hearing::heard(answer, panels, records, buffer),
    }
}

// A call at one place.
fn plain(mut panels: [World; 4], place: usize, request: Request, lent: &mut [u8]) -> BusStepped
    ensures value { result ≡ stepped_of panels (call_of (BusRequest.Plain place request) lent.old) }
    ensures lent_after { lent.new ≡ bus_lent (world_at panels) (call_of (BusRequest.Plain place request) lent.old) }
{
    let place = place.min(3);
    let Stepped { answer, world } = history::step(panels[place], request, lent);
    panels[place] = world;
    BusStepped { answer, panels }
}

// One bus call on the panels of the four places. The bytes of a Scene and the buffer of a call that writes a list are lent.
pub fn step(panels: [World; 4], request: BusRequest, lent: &mut [u8]) -> BusStepped
    ensures value { result ≡ stepped_of panels (call_of request lent.old) }
    ensures lent_after { lent.new ≡ bus_lent (world_at panels) (call_of request lent.old) }
{
    match request {
        BusRequest::Plain { place, request } => plain(panels, place, request, lent),
        BusRequest::Round { present, limit } => {
            let BusRounded { answer, panels } = round(panels, present, limit, lent);
            BusStepped {
                answer: CallAnswer::List(answer),
                panels,
            }
        }
    }
}
