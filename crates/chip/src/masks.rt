// The reserved bits of an address, all of them where it is not writable, by the address's range and with the member's lines and
// columns at hand. Most members have every column, and there a loop over many data bytes needs no division.
ghost use Rattle.std.specs.Prelude.{◌≡◌, cond, ◌<◌, ◌≤◌, ltb};
ghost use Rattle.map.specs.Map.{every_column, group_reserved, switch_reserved, reserved_of};

use crate::members::Member;
use map::Kind;

// Bit s for sink s: all eighteen.
const EVERY_COLUMN: u32 = 0x3FFFF;

// 0 before an end, from it on 255.
fn from_end(address: usize, end: usize) -> u8
    ensures { result ≡ cond (ltb address end) 0 255 }
{
    if address < end { 0 } else { 255 }
}

// 100h and up: a byte of a dot, or a hole.
pub(crate) fn dot_mask(member: Member, address: usize) -> u8
    requires { 0x100 ≤ address }
    ensures { result ≡ reserved_of member.code address }
{
    if address < 0x200 {
        if member.columns == EVERY_COLUMN {
            return from_end(address, 0x100 + 18 * member.lines);
        }
        return map::reserved_as(
            Kind::Current,
            member.code,
            member.lines,
            member.columns,
            address,
        );
    }
    if member.columns == EVERY_COLUMN {
        return from_end(address, 0x200 + 36 * member.lines);
    }
    map::reserved_as(
        Kind::Pwm,
        member.code,
        member.lines,
        member.columns,
        address,
    )
}

// The group byte x places behind 00Ch, with every column: the fifth byte of a line has sinks 16 and 17 alone.
fn group_mask(lines: usize, x: usize) -> u8
    requires { lines ≤ 11 }
    ensures { result ≡ group_reserved lines every_column x }
{
    if 5 * lines <= x {
        return 255;
    }
    if x % 5 == 4 { 0xF0 } else { 0x00 }
}

// The switch byte x places behind 043h, with every column: so has the third byte of a line.
fn switch_mask(lines: usize, x: usize) -> u8
    requires { lines ≤ 11 }
    ensures { result ≡ switch_reserved lines every_column x }
{
    if 3 * lines <= x {
        return 255;
    }
    if x % 3 == 2 { 0xFC } else { 0x00 }
}

// 000h to 0FFh.
pub(crate) fn low_mask(member: Member, address: usize) -> u8
    requires { address < 0x100 }
    ensures { result ≡ reserved_of member.code address }
{
    if 0x064 <= address {
        return 255;
    }
    if address < 0x00C {
        return map::reserved_as(
            Kind::Config,
            member.code,
            member.lines,
            member.columns,
            address,
        );
    }
    if address < 0x043 {
        if member.columns == EVERY_COLUMN {
            return group_mask(member.lines, address - 0x00C);
        }
        return map::reserved_as(
            Kind::Group,
            member.code,
            member.lines,
            member.columns,
            address,
        );
    }
    if member.columns == EVERY_COLUMN {
        return switch_mask(member.lines, address - 0x043);
    }
    map::reserved_as(
        Kind::Switch,
        member.code,
        member.lines,
        member.columns,
        address,
    )
}
