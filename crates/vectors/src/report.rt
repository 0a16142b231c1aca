// What the program prints, on standard output; that it cannot run, on standard error.
use crate::compare::Difference;
use crate::tally::Count;
use console::say;
use map::Place;
use rows::{Access, Dot, Holds, Row};
use std::io;

// A text, and a number behind it: in decimal, or its last two or three hexadecimal digits.
fn say_decimal(rt: &impl Print, text: &[u8], value: u64) {
    say(rt, text);
    console::say_decimal(rt, value);
}

fn say_digit(rt: &impl Print, value: usize) {
    let digit = (value % 16) as u8;
    if digit < 10 {
        say(rt, &[b'0' + digit]);
    } else {
        say(rt, &[b'A' - 10 + digit]);
    }
}

fn say_byte(rt: &impl Print, text: &[u8], value: usize) {
    say(rt, text);
    say_digit(rt, value / 16);
    say_digit(rt, value);
}

fn say_address(rt: &impl Print, text: &[u8], value: usize) {
    say(rt, text);
    say_digit(rt, value / 256);
    say_byte(rt, b"", value);
}

fn say_dot(rt: &impl Print, text: &[u8], dot: Dot) {
    say_decimal(rt, text, dot.line as u64);
    say_decimal(rt, b".", dot.sink as u64);
}

fn say_member(rt: &impl Print, member: usize) {
    match member {
        0 => say(rt, b"LP5860"),
        1 => say(rt, b"LP5861T"),
        2 => say(rt, b"LP5864"),
        3 => say(rt, b"LP5867"),
        _ => say(rt, b"LP5868T"),
    }
}

fn say_access(rt: &impl Print, access: Option<Access>) {
    match access {
        Some(Access::ReadWrite) => say(rt, b"RW"),
        Some(Access::Read) => say(rt, b"R"),
        Some(Access::Write) => say(rt, b"W"),
        None => say(rt, b"none"),
    }
}

// The bit or byte at an index.
fn say_part(rt: &impl Print, holds: Holds, index: usize) {
    match holds {
        Holds::Current => say(rt, b"current"),
        Holds::Pwm => match index {
            0 => say(rt, b"8-bit level"),
            1 => say(rt, b"low byte of 16 bits"),
            _ => say(rt, b"high byte of 16 bits"),
        },
        _ => say_decimal(rt, b"bit ", index as u64),
    }
}

fn say_place(rt: &impl Print, place: Option<Place>) {
    match place {
        Some(Place { address, shift }) => {
            say_address(rt, b", map has its first bit at ", address);
            say_decimal(rt, b" bit ", shift as u64);
        }
        None => say(rt, b", map has no such dot"),
    }
}

fn say_type(rt: &impl Print, row: Row, map: Option<Access>, writable: bool) {
    say(rt, b"type ");
    say_access(rt, Some(row.access));
    say_byte(rt, b" with reserved bits ", row.mask);
    say(rt, b", map ");
    say_access(rt, map);
    if writable {
        say(rt, b", writable");
    } else {
        say(rt, b", not writable");
    }
}

fn say_difference(rt: &impl Print, row: Row, difference: Difference) {
    match difference {
        Difference::Twice => say(rt, b"in two rows"),
        Difference::Default(map) => {
            say_byte(rt, b"default ", row.default.unwrap_or(0));
            say_byte(rt, b", map ", map);
        }
        Difference::NoDot(dot) => say_dot(rt, b"names a dot that the chip has not: ", dot),
        Difference::Access(map, writable) => say_type(rt, row, map, writable),
        Difference::Reserved(map) => {
            say_byte(rt, b"reserved bits ", row.mask);
            say_byte(rt, b", map ", map);
        }
        Difference::Place(index, dot, map) => {
            say_part(rt, row.holds, index);
            say_dot(rt, b" is for dot ", dot);
            say_place(rt, map);
        }
        Difference::Unnamed(index) => {
            say_part(rt, row.holds, index);
            say(rt, b" is for no dot, map has one");
        }
    }
}

// In what row and map differ.
pub fn difference(rt: &impl Print, row: Row, difference: Difference, expected: bool) {
    say_member(rt, row.member);
    say_address(rt, b" ", row.address);
    say(rt, b": ");
    say_difference(rt, row, difference);
    if expected {
        say(rt, b" (expected)");
    }
    say(rt, b"\n");
}

// A row that is expected to name a dot which its chip has not.
pub fn not_found(rt: &impl Print, member: usize, address: usize) {
    say_member(rt, member);
    say_address(rt, b" ", address);
    say(rt, b": an expected disagreement was not found\n");
}

pub fn broken(rt: &impl Print, line: u64) {
    say_decimal(rt, b"line ", line);
    say(rt, b": does not parse\n");
}

// That a member's rows are not of all its writable addresses.
pub fn missing(rt: &impl Print, member: usize, listed: u64, writable: u64) {
    say_member(rt, member);
    say_decimal(rt, b": ", listed);
    say_decimal(rt, b" rows of writable addresses, map has ", writable);
    say(rt, b"\n");
}

// An address and what the map has for it: it is in no row and resets to another value than 00h.
pub fn reset(rt: &impl Print, member: usize, address: usize, map: usize) {
    say_member(rt, member);
    say_address(rt, b" ", address);
    say_byte(rt, b": in no row, map resets it to ", map);
    say(rt, b"\n");
}

// An address that carries a dot and is not writable, or that is writable with no dot.
pub fn carried(rt: &impl Print, member: usize, address: usize, writable: bool) {
    say_member(rt, member);
    say_address(rt, b" ", address);
    if writable {
        say(rt, b": carries no dot, map has it writable\n");
    } else {
        say(rt, b": carries a dot, map has it not writable\n");
    }
}

fn say_count(rt: &impl Print, count: Count) {
    say_decimal(rt, b": ", count.rows);
    say_decimal(rt, b" rows, ", count.lost);
    say_decimal(rt, b" without a default; ", count.unlisted);
    say_decimal(rt, b" addresses in no row, ", count.carried);
    say_decimal(rt, b" with a dot; ", count.comparisons);
    say_decimal(rt, b" comparisons, ", count.disagreements);
    say(rt, b" disagreements");
}

pub fn member(rt: &impl Print, member: usize, count: Count) {
    say_member(rt, member);
    say_count(rt, count);
    say(rt, b"\n");
}

pub fn total(rt: &impl Print, count: Count, broken: u64) {
    say(rt, b"total");
    say_count(rt, count);
    say_decimal(rt, b", ", broken);
    say(rt, b" lines that do not parse\n");
}

pub fn example(rt: &impl Print, text: &[u8], agrees: bool) {
    say(rt, b"example: ");
    say(rt, text);
    if agrees {
        say(rt, b": agrees\n");
    } else {
        say(rt, b": disagrees\n");
    }
}

pub fn verdict(rt: &impl Print, as_expected: bool) {
    if as_expected {
        say(rt, b"as expected\n");
    } else {
        say(rt, b"NOT as expected\n");
    }
}

pub fn usage(err: &impl Print) {
    say(err, b"vectors: takes one argument, the file of rows\n");
}

// What failed, and the reason.
pub fn failed(err: &impl Print, what: &[u8], path: &[u8], error: &io::Error) {
    say(err, what);
    console::fail(err, path, error);
}
