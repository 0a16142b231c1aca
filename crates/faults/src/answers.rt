// What Faults answers: its refusals, and whether 064h agrees with the dots.
ghost use Rattle.std.specs.Prelude.{◌≡◌, ◌<◌, ltb, eqb};
ghost use Rattle.std.specs.Bool.{beq};
ghost use Rattle.host.specs.Record.{record_behind};
ghost use Rattle.faults.specs.Faults.{bit_set, faults_checked};

use crate::Agreement;
use crate::readings::Found;
use host::RecordRef;
use map::{Answer, Refusal};

// The refusals, by a record and the lengths of the fault bytes and of the result.
#[tactic(auto, unfolding(crate::specs::Faults::faults_checked, host::specs::Record::when_sound))]
pub(crate) fn checked(r: RecordRef<'_>, given: usize, room: usize) -> Answer
    ensures { result ≡ faults_checked (record_behind r.entry) given room }
{
    if !host::sound_parts(r) {
        return Err(Refusal::Unsound);
    }
    if given != 67 {
        return Err(Refusal::FaultLength);
    }
    if room < 198 {
        return Err(Refusal::BufferShort);
    }
    Ok(())
}

// Whether a bit of 064h is 1 just where there is some faulty dot.
fn agrees(bit: u8, faulty: u8) -> bool
    requires { bit < 2 }
    ensures { result ≡ beq (eqb bit 1) (ltb 0 faulty) }
{
    (bit == 1) == (0 < faulty)
}

// What 064h, here `state`, says beside the open and the short dots that are found.
#[tactic(auto, unfolding(crate::specs::Faults::bit_set))]
pub(crate) fn read(state: u8, found: Found) -> Agreement
    ensures { (result.opens ≡ beq (bit_set state 1) (ltb 0 found.opens)) × (result.shorts ≡ beq (bit_set state 0) (ltb 0 found.shorts)) }
{
    Agreement {
        opens: agrees(state / 2 % 2, found.opens),
        shorts: agrees(state % 2, found.shorts),
    }
}
