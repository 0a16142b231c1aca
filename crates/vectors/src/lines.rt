// One line of the file: it is parsed, each comparison is made, and what disagrees is printed and counted.
use crate::addresses::Marks;
use crate::compare::{Comparison, Difference};
use crate::tally::{Count, Tally};
use crate::{addresses, compare, expected, report};
use rows::Row;

// Counts a comparison, and prints in what row and map differ.
fn noted(rt: &impl Print, count: &mut Count, row: Row, comparison: Comparison) {
    if let Err(difference) = comparison {
        report::difference(rt, row, difference, expected::is_expected(row, difference));
    }
    count.compared(comparison.is_ok());
}

// The same, where there is something to compare.
fn noted_if_any(rt: &impl Print, count: &mut Count, row: Row, comparison: Option<Comparison>) {
    if let Some(comparison) = comparison {
        noted(rt, count, row, comparison);
    }
}

// Where a row names a dot that the chip has not, differences in its type, reserved bits and places follow from that.
fn compared(rt: &impl Print, count: &mut Count, text: &[u8], row: Row, dots: Option<Comparison>) {
    noted_if_any(rt, count, row, compare::default(row));
    noted_if_any(rt, count, row, dots);
    if let Some(Err(_)) = dots {
        return;
    }
    noted(rt, count, row, compare::access(row));
    noted_if_any(rt, count, row, compare::reserved(row));
    for index in 0..rows::names(row.holds) {
        let named = rows::name_at(text, row.holds, index);
        noted(rt, count, row, compare::place(row, index, named));
    }
}

fn marked(marks: &mut Marks, row: Row, difference: Difference) {
    if expected::is_expected(row, difference) {
        addresses::found(marks, row.member, row.address);
    }
}

// Each row marks its address.
fn row_counted(rt: &impl Print, count: &mut Count, text: &[u8], row: Row, marks: &mut Marks) {
    let writable = map::writable(row.member, row.address);
    count.listed(writable, row.default.is_none());
    noted_if_any(rt, count, row, addresses::listed(marks, row));
    let dots = compare::dots(text, row);
    if let Some(Err(difference)) = dots {
        marked(marks, row, difference);
    }
    compared(rt, count, text, row, dots);
}

pub fn broken(rt: &impl Print, tally: &mut Tally) {
    report::broken(rt, tally.lines);
    tally.broken = tally.broken.saturating_add(1);
}

pub fn counted(rt: &impl Print, tally: &mut Tally, text: &[u8], marks: &mut Marks) {
    let Some(row) = rows::parse(text) else {
        broken(rt, tally);
        return;
    };
    if row.member < 5 {
        row_counted(rt, &mut tally.members[row.member], text, row, marks);
    }
}
