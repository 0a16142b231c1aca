// What the program prints, all of it on standard output.
use crate::tally::Tally;
use console::say;

fn say_decimal(rt: &impl Print, text: &[u8], value: u64) {
    say(rt, text);
    console::say_decimal(rt, value);
}

// The beginning of an example's line.
pub fn begin(rt: &impl Print, name: &[u8]) {
    say(rt, name);
}

// What the lamps of its record are lit with.
pub fn light(rt: &impl Print, mode: u8, level: usize) {
    say_decimal(rt, b", data mode ", mode as u64);
    say_decimal(rt, b", level ", level as u64);
}

// What is found stands behind it.
pub fn found(rt: &impl Print) {
    say(rt, b":");
}

// The end of an example's line.
pub fn end(rt: &impl Print, as_expected: bool) {
    if as_expected {
        say(rt, b" as expected");
    }
    say(rt, b"\n");
}

// A value that is not the expected one.
pub fn difference(rt: &impl Print, what: &[u8], found: u8, expected: u8) {
    say(rt, b" ");
    say_decimal(rt, what, found as u64);
    say_decimal(rt, b", not ", expected as u64);
    say(rt, b";");
}

// The same of one among many: a dot, a byte of the buffer, the count of a reading.
pub fn difference_at(rt: &impl Print, what: &[u8], number: usize, found: u8, expected: u8) {
    say(rt, b" ");
    say_decimal(rt, what, number as u64);
    difference(rt, b"is ", found, expected);
}

pub fn total(rt: &impl Print, tally: Tally) {
    say_decimal(rt, b"total: ", tally.examples);
    say_decimal(rt, b" examples, ", tally.differing);
    say(rt, b" differ\n");
}
