// Reserved bits, writable addresses and reset values.
ghost use Rattle.std.specs.Prelude.{◌≡◌, ◌-◌, ◌<◌, ◌≤◌};
ghost use Rattle.map.specs.Map.{no_sink, group_mask, switch_mask, group_reserved, switch_reserved, current_reserved, pwm_reserved, reserved_as, reserved_of, writable_of, switch_reset, current_reset, reset_as, reset_of};

use crate::dots::{has_column, number_in};
use crate::kinds::{Kind, kind_at};
use crate::members;

// 1 where a column is absent.
#[tactic(auto, unfolding(crate::specs::Map::no_sink))]
fn no_sink(columns: u32, sink: usize) -> u8
    ensures { (result ≡ no_sink columns sink) × (result ≤ 1) }
{
    if has_column(columns, sink) { 0 } else { 1 }
}

// The bits of absent sinks in byte q of the five group bytes of a line. (The terms are written out: of `(0..4).map(..).sum()` the check
// did not prove that the sum fits.)
pub fn group_mask(columns: u32, q: usize) -> u8
    ensures { result ≡ group_mask columns q }
{
    if 4 < q {
        return 255;
    }
    let s = 4 * q;
    no_sink(columns, s) * 3
        + no_sink(columns, s + 1) * 12
        + no_sink(columns, s + 2) * 48
        + no_sink(columns, s + 3) * 192
}

// The bits of absent sinks in byte q of the three switch bytes of a line. (Written out as above.)
pub fn switch_mask(columns: u32, q: usize) -> u8
    ensures { result ≡ switch_mask columns q }
{
    if 2 < q {
        return 255;
    }
    let s = 8 * q;
    no_sink(columns, s)
        + no_sink(columns, s + 1) * 2
        + no_sink(columns, s + 2) * 4
        + no_sink(columns, s + 3) * 8
        + no_sink(columns, s + 4) * 16
        + no_sink(columns, s + 5) * 32
        + no_sink(columns, s + 6) * 64
        + no_sink(columns, s + 7) * 128
}

// The reserved bits of the group byte x places behind 00Ch: all of them where its line is absent.
#[tactic(auto, unfolding(crate::specs::Map::group_reserved))]
fn group_reserved(lines: usize, columns: u32, x: usize) -> u8
    ensures { result ≡ group_reserved lines columns x }
{
    if x / 5 < lines {
        group_mask(columns, x % 5)
    } else {
        255
    }
}

// Not inlined: its eight terms would have `reserved_as` save registers for every kind, six instructions more for each byte of a scan.
#[tactic(auto, unfolding(crate::specs::Map::switch_reserved))]
#[inline(never)]
fn switch_reserved(lines: usize, columns: u32, x: usize) -> u8
    ensures { result ≡ switch_reserved lines columns x }
{
    if x / 3 < lines {
        switch_mask(columns, x % 3)
    } else {
        255
    }
}

#[tactic(auto, unfolding(crate::specs::Map::current_reserved))]
fn current_reserved(lines: usize, columns: u32, x: usize) -> u8
    ensures { result ≡ current_reserved lines columns x }
{
    if number_in(lines, columns, x) { 0 } else { 255 }
}

// Place x of the levels is dot x in 8 bits and dot x / 2 in 16: either will do.
#[tactic(auto, unfolding(crate::specs::Map::pwm_reserved))]
pub fn pwm_reserved(lines: usize, columns: u32, x: usize) -> u8
    ensures { result ≡ pwm_reserved lines columns x }
{
    if number_in(lines, columns, x / 2) || number_in(lines, columns, x) {
        0
    } else {
        255
    }
}

// The reserved bits of an address of a known kind, with the member's lines and columns at hand.
#[tactic(auto, unfolding(crate::specs::Map::reserved_as))]
pub fn reserved_as(kind: Kind, member: usize, lines: usize, columns: u32, address: usize) -> u8
    ensures { result ≡ reserved_as kind member lines columns address }
{
    match kind {
        Kind::Config => members::first_mask(member, address),
        Kind::Group => group_reserved(lines, columns, address.saturating_sub(0x00C)),
        Kind::Switch => switch_reserved(lines, columns, address.saturating_sub(0x043)),
        Kind::Current => current_reserved(lines, columns, address.saturating_sub(0x100)),
        Kind::Pwm => pwm_reserved(lines, columns, address.saturating_sub(0x200)),
        Kind::FaultState | Kind::Open | Kind::Short | Kind::Command | Kind::Hole => 255,
    }
}

// The reserved bits of an address: all of them where it is not writable.
#[tactic(auto, unfolding(crate::specs::Map::reserved_of))]
pub fn reserved(member: usize, address: usize) -> u8
    ensures { result ≡ reserved_of member address }
{
    reserved_as(
        kind_at(address),
        member,
        members::lines(member),
        members::columns(member),
        address,
    )
}

#[tactic(auto, unfolding(crate::specs::Map::writable_of))]
pub fn writable(member: usize, address: usize) -> bool
    ensures { result ≡ writable_of member address }
{
    reserved(member, address) < 255
}

// FFh FFh 03h, over and over, as far as the summary table lists switch bytes.
#[tactic(auto, unfolding(crate::specs::Map::switch_reset))]
pub fn switch_reset(listed: usize, x: usize) -> u8
    ensures { result ≡ switch_reset listed x }
{
    if listed <= x {
        0x00
    } else if x % 3 == 2 {
        0x03
    } else {
        0xFF
    }
}

// 80h at every dot number of the member's lines, absent sinks included.
#[tactic(auto, unfolding(crate::specs::Map::current_reset))]
pub fn current_reset(lines: usize, x: usize) -> u8
    ensures { result ≡ current_reset lines x }
{
    if x / 18 < lines { 0x80 } else { 0 }
}

// The reset value of an address of a known kind.
#[tactic(auto, unfolding(crate::specs::Map::reset_as))]
pub fn reset_as(kind: Kind, member: usize, address: usize) -> u8
    ensures { result ≡ reset_as kind member address }
{
    match kind {
        Kind::Config => members::first_reset(member, address),
        Kind::Switch => switch_reset(members::switch_bytes(member), address.saturating_sub(0x043)),
        Kind::Current => current_reset(members::lines(member), address.saturating_sub(0x100)),
        _ => 0,
    }
}

#[tactic(auto, unfolding(crate::specs::Map::reset_of))]
pub fn reset_value(member: usize, address: usize) -> u8
    ensures { result ≡ reset_of member address }
{
    reset_as(kind_at(address), member, address)
}
