// Every address of a member, in a row or not. A row of a summary table has one address: an address is listed for a member where
// one of the member's rows has it.
//
// "A member's own summary table overrides; an address it does not list resets to 00h." "An address is writable for a member if it
// is 000h-00Bh, or carries a bit for one of its dots as group, switch, current or PWM in either data mode." (document 01)
use crate::compare::{ADDRESSES, Comparison, Difference};
use crate::report;
use crate::tally::Count;
use map::{Field, Place};
use rows::Row;

// What is known of an address of a member.
#[derive(Clone, Copy, PartialEq, Eq)]
pub enum Mark {
    Unlisted,
    Listed,
    // listed, and an expected disagreement was found
    Found,
}

pub type Marks = [[Mark; ADDRESSES]; 5];

pub fn unmarked() -> Marks {
    [[Mark::Unlisted; ADDRESSES]; 5]
}

fn mark_of(marks: &Marks, member: usize, address: usize) -> Option<Mark> {
    marks.get(member)?.get(address).copied()
}

fn put_mark(marks: &mut Marks, member: usize, address: usize, mark: Mark) {
    if member < 5 && address < ADDRESSES {
        marks[member][address] = mark;
    }
}

// Marks a row's address, which no other row of the member may have.
pub fn listed(marks: &mut Marks, row: Row) -> Option<Comparison> {
    let before = mark_of(marks, row.member, row.address)?;
    put_mark(marks, row.member, row.address, Mark::Listed);
    Some(match before {
        Mark::Unlisted => Ok(()),
        _ => Err(Difference::Twice),
    })
}

fn is_listed(marks: &Marks, member: usize, address: usize) -> bool {
    mark_of(marks, member, address).is_some_and(|mark| mark != Mark::Unlisted)
}

// Marks an expected disagreement.
pub fn found(marks: &mut Marks, member: usize, address: usize) {
    put_mark(marks, member, address, Mark::Found);
}

pub fn is_found(marks: &Marks, member: usize, address: usize) -> bool {
    mark_of(marks, member, address) == Some(Mark::Found)
}

fn has_byte(place: Option<Place>, at: usize) -> bool {
    place.is_some_and(|place| place.address == at)
}

// Whether a dot has a bit at an address. Its 16 bits take two addresses.
fn dot_carries(member: usize, line: usize, sink: usize, at: usize) -> bool {
    if !map::is_dot(member, line, sink) {
        return false;
    }
    let wide = map::place_of(Field::Pwm16, member, line, sink);
    has_byte(map::place_of(Field::Group, member, line, sink), at)
        || has_byte(map::place_of(Field::Switch, member, line, sink), at)
        || has_byte(map::place_of(Field::Current, member, line, sink), at)
        || has_byte(map::place_of(Field::Pwm8, member, line, sink), at)
        || has_byte(wide, at)
        || at.checked_sub(1).is_some_and(|low| has_byte(wide, low))
}

// Whether an address carries a bit for one of the member's dots.
fn carries(member: usize, at: usize) -> bool {
    (0..11).any(|line| (0..18).any(|sink| dot_carries(member, line, sink, at)))
}

fn access(rt: &impl Print, count: &mut Count, member: usize, address: usize, carried: bool) {
    let writable = map::writable(member, address);
    let agrees = writable == (address < 0x00C || carried);
    if !agrees {
        report::carried(rt, member, address, writable);
    }
    count.compared(agrees);
}

fn unlisted(rt: &impl Print, count: &mut Count, member: usize, address: usize, carried: bool) {
    let reset = map::reset_value(member, address);
    if reset != 0 {
        report::reset(rt, member, address, reset as usize);
    }
    count.unlisted(carried);
    count.compared(reset == 0);
}

// What the map has for each address of a member.
pub fn counted(rt: &impl Print, count: &mut Count, member: usize, marks: &Marks) {
    for address in 0..ADDRESSES {
        let carried = carries(member, address);
        access(rt, count, member, address, carried);
        if !is_listed(marks, member, address) {
            unlisted(rt, count, member, address, carried);
        }
    }
}
