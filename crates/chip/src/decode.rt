// The head of a transaction, as a chip reads it.
ghost use Rattle.std.specs.Prelude.{◌≡◌};
ghost use Rattle.chip.specs.Chip.{selected, decode_of};

// An enum of its own, not an Option: document 01 names it, "a write to this chip or passes by".
#[derive(Clone, Copy)]
pub enum Transaction {
    // data for this chip, from an address on
    Write(usize),
    PassesBy,
}

// Whether a head is for this chip. On I2C its top five bits are 100 and the chip's pins, or 10101 for every chip; an SPI head
// names no chip.
#[tactic(auto, unfolding(crate::specs::Chip::selected, burst::specs::Burst::head_select))]
fn selects(bus: u8, pins: u8, h0: u8) -> bool
    ensures { result ≡ selected bus pins h0 }
{
    // not in the chain below: tried, and each transaction on SPI takes 14 instructions more
    if bus != 0 {
        return true;
    }
    let select = h0 as usize / 8;
    select == 0x15 || select == 0x10 + pins as usize
}

#[tactic(auto, unfolding(crate::specs::Chip::decode_of))]
pub(crate) fn decode(bus: u8, pins: u8, h0: u8, h1: u8) -> Transaction
    ensures { result ≡ decode_of bus pins h0 h1 }
{
    if burst::head_writes(bus, h0, h1) && selects(bus, pins, h0) {
        Transaction::Write(burst::head_address(bus, h0, h1))
    } else {
        Transaction::PassesBy
    }
}
