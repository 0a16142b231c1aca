// The two head bytes of a transaction: written, and read back.
ghost use Rattle.std.specs.Prelude.{◌≡◌};
ghost use Rattle.burst.specs.Burst.{head_first, head_second, head_address, head_writes};

// The first byte of the head of a write from `address` on. (A bus is a number and no enum: it is a byte of a record in C, which may hold any.)
pub fn head_first(bus: u8, pins: u8, address: usize) -> u8
    ensures { result ≡ head_first bus pins address }
{
    if bus == 0 {
        return (0x80 + 8 * (pins as usize % 4) + 2 * (address / 256 % 4)) as u8;
    }
    (address / 4 % 256) as u8
}

// The second byte.
pub fn head_second(bus: u8, address: usize) -> u8
    ensures { result ≡ head_second bus address }
{
    if bus == 0 {
        return (address % 256) as u8;
    }
    (64 * (address % 4) + 0x20) as u8
}

// The address that a head names.
pub fn head_address(bus: u8, h0: u8, h1: u8) -> usize
    ensures { result ≡ head_address bus h0 h1 }
{
    if bus == 0 {
        return 256 * (h0 as usize / 2 % 4) + h1 as usize;
    }
    4 * h0 as usize + h1 as usize / 64
}

// Whether a head says write; else it says read.
pub fn head_writes(bus: u8, h0: u8, h1: u8) -> bool
    ensures { result ≡ head_writes bus h0 h1 }
{
    if bus == 0 {
        return h0 % 2 == 0;
    }
    h1 / 32 % 2 == 1
}
