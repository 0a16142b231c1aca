// The data bytes of a write.
ghost use Rattle.std.specs.Prelude.{◌≡◌, true, cond, not, ◌+◌, ◌<◌, ◌≤◌};
ghost use Rattle.map.specs.Images.{reset_image};
ghost use Rattle.chip.specs.Chip.{is_on, heard, merged, is_command, faults_off, heard_byte, hear_byte, hear_data};

use crate::masks::{dot_mask, low_mask};
use crate::members::Member;

// The bits of the mask from the old byte, the others from the new one.
#[tactic(auto, unfolding(crate::specs::Chip::merged))]
fn merge(mask: u8, old: u8, value: u8) -> u8
    ensures { result ≡ merged mask old value }
{
    (old & mask) | (value & (255 - mask))
}

// The fault bytes of one kind are 0, 33 from `from` on, and 064h has the bits of the mask alone.
fn faults_off(registers: &mut [u8; 908], from: usize, mask: u8)
    requires { from < 0x100 }
    ensures { registers.new ≡ faults_off from mask registers.old }
{
    registers[0x064] &= mask;
    registers[from..from + 33].fill(0);
}

#[tactic(auto, unfolding(crate::specs::Chip::heard))]
fn hears(on: bool, address: usize) -> bool
    ensures { result ≡ heard on address }
{
    on || address == 0x000 || address == 0x0A9
}

// Whether a byte at an address is the command of this address and this value.
#[tactic(auto, unfolding(crate::specs::Chip::is_command))]
fn commands(command: usize, code: u8, address: usize, value: u8) -> bool
    ensures { result ≡ is_command command code address value }
{
    address == command && value == code
}

// A byte for 000h to 0FFh that is heard. 0Fh at 0A7h, the data sheets' LOD_clear, clears the open bits, at 0A8h, their LSD_clear,
// the short bits.
fn put_low(member: Member, registers: &mut [u8; 908], address: usize, value: u8)
    requires { address < 0x100 }
    ensures { registers.new ≡ heard_byte member.code address value registers.old }
{
    if commands(0x0A7, 0x0F, address, value) {
        faults_off(registers, 0x065, 0xFD);
        return;
    }
    if commands(0x0A8, 0x0F, address, value) {
        faults_off(registers, 0x086, 0xFE);
        return;
    }
    registers[address] = merge(low_mask(member, address), registers[address], value);
}

// A byte for 000h to 0FFh. It answers whether the write goes on behind it: a reset drops the rest.
fn hear_low(member: Member, on: bool, registers: &mut [u8; 908], address: usize, value: u8) -> bool
    requires { address < 0x100 }
    ensures answers { result ≡ not (is_command 0x0A9 0xFF address value) }
    ensures stores { registers.new ≡ cond result (hear_byte member.code on address value registers.old) (reset_image member.code) }
{
    if commands(0x0A9, 0xFF, address, value) {
        images::put_reset(member.code, registers);
        return false;
    }
    if hears(on, address) {
        put_low(member, registers, address, value);
    }
    true
}

// The bytes from 100h on, where no command is, of a write that starts with the chip on. Those beyond 38Bh are dropped.
fn hear_dots(member: Member, registers: &mut [u8; 908], first: usize, bytes: &[u8])
    requires { (0x100 ≤ first) × (first < 1024) }
    ensures { registers.new ≡ hear_data member.code true first bytes.now registers.old }
{
    for (i, byte) in bytes.iter().enumerate() {
        let address = first + i;
        if 0x38B < address {
            return;
        }
        registers[address] = merge(dot_mask(member, address), registers[address], *byte);
    }
}

// All bytes of a write.
pub(crate) fn hear(member: Member, registers: &mut [u8; 908], start: usize, bytes: &[u8])
    requires { start < 1024 }
    ensures { registers.new ≡ hear_data member.code (is_on registers.old) start bytes.now registers.old }
{
    let on = registers[0x000] % 2 == 1;
    for (i, byte) in bytes.iter().enumerate() {
        let address = start + i;
        if 0x100 <= address {
            if on {
                hear_dots(member, registers, address, &bytes[i..]);
            }
            return;
        }
        if !hear_low(member, on, registers, address, *byte) {
            return;
        }
    }
}
