// How many bytes of a round each place gets: its part within a quarter of them first, then what is left over, in pin order.
ghost use Rattle.std.specs.Prelude.{◌≡◌, ◌+◌, ◌-◌, ◌*◌, ◌/◌, ◌≤◌, ◌<◌, sum};
ghost use Rattle.plan.specs.Portion.{portion};
ghost use Rattle.host.specs.Record.{record_behind};
ghost use Rattle.rounds.specs.Round.{share_of, present_at};
ghost use Rattle.rounds.specs.Parts.{Sized};
ghost use Rattle.rounds.specs.Dealing.{records_of, waiting_of, Waits, AllWait, first_bytes, DealtAre};

use crate::parts::part_size;
use host::RecordRef;
use writes::Count;

// "A share is B / 4, whole."
const PLACES: usize = 4;

// The number of all writes, and the bus bytes of the parts of the four places.
#[derive(Clone, Copy)]
pub(crate) struct Dealt {
    pub(crate) writes: usize,
    pub(crate) bytes: [usize; 4],
}

impl Dealt {
    pub(crate) fn total(&self) -> usize
        requires { sum self.now.bytes ≤ 4096 }
        ensures { result ≡ sum self.now.bytes }
    {
        self.bytes.iter().sum()
    }
}

// The number of writes and the bus bytes of what waits at a place and fits so much room; nothing waits where it is absent.
fn size_at(present: bool, r: RecordRef<'_>, room: usize) -> Count
    requires lent { Waits present (record_behind r) }
    requires narrow { room ≤ 8192 }
    ensures { Sized (portion room (waiting_of present (record_behind r.entry))) result.writes result.bytes
        × (3 * result.writes ≤ result.bytes) × (result.bytes ≤ room) }
{
    if present {
        part_size(r, room)
    } else {
        Count {
            writes: 0,
            bytes: 0,
        }
    }
}

// "First each chip's portion within its share is found."
fn first_sizes(records: &[RecordRef<'_>; 4], present: [bool; 4], share: usize) -> [usize; 4]
    requires sound { AllWait (present_at present) (records_of records.now) }
    requires narrow { share ≤ 1024 }
    ensures { result ≡ first_bytes share (present_at present) (records_of records.now) }
{
    let mut firsts = [0; 4];
    for place in 0..4 {
        firsts[place] = size_at(present[place], records[place], share).bytes;
    }
    firsts
}

// What B has left over.
fn left_over(limit: usize, firsts: [usize; 4]) -> usize
    requires { sum firsts ≤ limit }
    ensures { result + sum firsts ≡ limit }
{
    let used: usize = firsts.iter().sum();
    limit - used
}

// "What B has left over then goes round in pin order"
fn deal(records: &[RecordRef<'_>; 4], present: [bool; 4], firsts: [usize; 4], limit: usize) -> Dealt
    requires sound { AllWait (present_at present) (records_of records.now) }
    requires limited { limit ≤ 4096 }
    requires firsts { firsts ≡ first_bytes (share_of limit) (present_at present) (records_of records.now) }
    ensures { DealtAre limit (present_at present) (records_of records.now) result }
{
    let mut left = left_over(limit, firsts);
    let mut writes = 0;
    let mut bytes = [0; 4];
    for place in 0..4 {
        let room = firsts[place] + left;
        let size = size_at(present[place], records[place], room);
        left = room - size.bytes;
        writes += size.writes;
        bytes[place] = size.bytes;
    }
    Dealt { writes, bytes }
}

// Both passes.
pub(crate) fn deal_out(records: &[RecordRef<'_>; 4], present: [bool; 4], limit: usize) -> Dealt
    requires sound { AllWait (present_at present) (records_of records.now) }
    requires limited { limit ≤ 4096 }
    ensures { DealtAre limit (present_at present) (records_of records.now) result }
{
    let firsts = first_sizes(records, present, limit / PLACES);
    deal(records, present, firsts, limit)
}
