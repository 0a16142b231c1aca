// What a round refuses before it looks at what waits: 14, 15 and 16, in this order.
ghost use Rattle.std.specs.Prelude.{◌≡◌, not, ◌&&◌, ◌||◌, leb};
ghost use Rattle.host.specs.Record.{record_behind, sound_of};
ghost use Rattle.rounds.specs.Round.{least_limit, most_limit, every_place, present_at, present_sound, present_placed};
ghost use Rattle.rounds.specs.Dealing.{records_of, header_placed, round_refusal};

use host::RecordRef;
use map::{Answer, Refusal};

const LEAST_LIMIT: usize = 12;

const MOST_LIMIT: usize = 4096;

// The record of a place that is present is sound.
fn sound_at(present: bool, r: RecordRef<'_>) -> bool
    ensures { result ≡ (not present || sound_of (record_behind r.entry)) }
{
    !present || host::sound_parts(r)
}

fn all_sound(records: &[RecordRef<'_>; 4], present: [bool; 4]) -> bool
    ensures { result ≡ every_place (present_sound (present_at present) (records_of records.now)) }
{
    for place in 0..4 {
        if !sound_at(present[place], records[place]) {
            return false;
        }
    }
    true
}

fn in_range(limit: usize) -> bool
    ensures { result ≡ (leb least_limit limit && leb limit most_limit) }
{
    (LEAST_LIMIT..=MOST_LIMIT).contains(&limit)
}

// The record of a place that is present is on I2C and has its place for its pins.
fn placed_at(present: bool, r: RecordRef<'_>, place: usize) -> bool
    ensures { result ≡ header_placed present (record_behind r.entry).header place }
{
    !present || r.header.bus == 0 && r.header.pins as usize == place
}

fn all_placed(records: &[RecordRef<'_>; 4], present: [bool; 4]) -> bool
    ensures { result ≡ every_place (present_placed (present_at present) (records_of records.now)) }
{
    for place in 0..4 {
        if !placed_at(present[place], records[place], place) {
            return false;
        }
    }
    true
}

pub(crate) fn refusal(records: &[RecordRef<'_>; 4], present: [bool; 4], limit: usize) -> Answer
    ensures { result ≡ round_refusal (present_at present) (records_of records.now) limit }
{
    if !all_sound(records, present) {
        return Err(Refusal::Unsound);
    }
    if !in_range(limit) {
        return Err(Refusal::RoundLimit);
    }
    if !all_placed(records, present) {
        return Err(Refusal::NotItsPlace);
    }
    Ok(())
}
