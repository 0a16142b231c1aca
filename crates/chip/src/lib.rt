// A model of the chip: what it holds, and what a burst list does to it. It knows nothing of the host's record.
//
// A chip has member, bus, pins and 908 register bytes. It goes into each call by value and comes back, or its register bytes are
// lent, wherever they stand, and nothing is copied. Feed takes a burst list: each transaction is a write to this chip or passes by,
// and the data bytes of a write go to rising addresses. In standby only 000h and 0A9h are heard. Reserved bits, read-only bytes,
// command bytes and holes keep their values, but for what the three commands do: 0A7h and 0A8h clear the open and the short bits,
// 0A9h resets.
#![tactic(auto)]

mod chips;
mod data;
mod decode;
mod lists;
mod masks;
mod members;

ghost use Rattle.std.specs.Prelude.{◌≡◌, cond, eqb, length};
ghost use Rattle.chip.specs.Chip.{chip_of, power_lost_of, at_reset_of, feed_answer, feed_of};

use burst::Sizes;
use map::{Answer, Refusal};

#[derive(Clone, Copy)]
pub struct Chip {
    pub member: u8,
    pub bus: u8,
    pub pins: u8,
    pub registers: [u8; 908],
}

// What Feed answers, and the chip that it gives back.
#[derive(Clone, Copy)]
pub struct Fed {
    pub answer: Answer,
    pub chip: Chip,
}

// What Open answers, and a chip at its reset values: not one struct with Fed, since the claims above name either call's answer by its type.
#[derive(Clone, Copy)]
pub struct Opened {
    pub answer: Answer,
    pub chip: Chip,
}

// A chip of a member, on bus 0 (I2C, with these pins) or 1 (SPI, pins 0), that was just given power. Where Open would refuse it,
// the chip is that of member 0, bus 0 and pins 0.
pub fn at_reset(member: usize, bus: usize, pins: usize) -> Opened
    ensures { result ≡ at_reset_of member bus pins }
{
    let answer = map::open_answer(member, bus, pins);
    let chip = chips::opened(answer, member, bus, pins);
    Opened { answer, chip }
}

// A loss of power, on register bytes that are lent. A member above 4 has no reset values, and nothing changes; nor do other than
// 908 bytes.
pub fn lose_power(member: u8, registers: &mut [u8])
    ensures { registers.new ≡
        cond (eqb (length registers.old) 908) (power_lost_of (chip_of member 0 0 registers.old)).registers registers.old }
{
    if member < 5 {
        images::put_reset(member as usize, registers);
    }
}

// The same of a chip.
pub fn power_lost(mut chip: Chip) -> Chip
    ensures { result ≡ power_lost_of chip }
{
    lose_power(chip.member, &mut chip.registers);
    chip
}

// A burst list on register bytes that are lent: the refusals in their order, then every transaction. Other than 908 bytes are not
// sound.
pub fn feed_registers(member: u8, bus: u8, pins: u8, registers: &mut [u8], list: &[u8]) -> Answer
    ensures answers { result ≡ feed_answer (chip_of member bus pins registers.old) list.now }
    ensures stores { registers.new ≡ (feed_of (chip_of member bus pins registers.old) list.now).chip.registers }
{
    if !chips::sound(member, bus, pins, registers) {
        return Err(Refusal::Unsound);
    }
    let Sizes { n, t: _ } = burst::read_sizes(list).ok_or(Refusal::ListSizes)?;
    let registers: &mut [u8; 908] = registers.as_mut_array().unwrap();
    lists::apply_all(member as usize, bus, pins, registers, list, n);
    Ok(())
}

// The same of a chip.
pub fn feed(mut chip: Chip, list: &[u8]) -> Fed
    ensures { result ≡ feed_of chip list.now }
{
    let answer = feed_registers(chip.member, chip.bus, chip.pins, &mut chip.registers, list);
    Fed { answer, chip }
}
