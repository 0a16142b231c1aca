// Chips that are sound, and chips at their reset values.
ghost use Rattle.std.specs.Prelude.{◌≡◌, true, cond, ◌<◌};
ghost use Rattle.map.specs.Refusals.{accepted};
ghost use Rattle.chip.specs.Chip.{chip_of, sound_of, new_chip};

use crate::Chip;
use map::Answer;

// Not inlined: the loops over a list behind it then have the registers for themselves, and the list of a full update takes 400
// instructions fewer.
#[inline(never)]
pub(crate) fn sound(member: u8, bus: u8, pins: u8, registers: &[u8]) -> bool
    ensures { result ≡ sound_of (chip_of member bus pins registers.now) }
{
    map::open_answer(member as usize, bus as usize, pins as usize).is_ok()
        && images::registers_ok(member as usize, registers)
}

fn new_chip(member: usize, bus: usize, pins: usize) -> Chip
    requires { (member < 5) × (bus < 2) × (pins < 4) }
    ensures { result ≡ new_chip member bus pins }
{
    Chip {
        member: member as u8,
        bus: bus as u8,
        pins: pins as u8,
        registers: images::reset_image(member),
    }
}

pub(crate) fn opened(answer: Answer, member: usize, bus: usize, pins: usize) -> Chip
    requires { accepted answer ≡ true → (member < 5) × (bus < 2) × (pins < 4) }
    ensures { result ≡ cond (accepted answer) (new_chip member bus pins) (new_chip 0 0 0) }
{
    match answer {
        Ok(()) => new_chip(member, bus, pins),
        Err(_) => new_chip(0, 0, 0),
    }
}
