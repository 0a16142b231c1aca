// The disagreements that are expected: rows that name dots which their chip has not. docs/DECISIONS.md says how they were settled.
use crate::addresses::Marks;
use crate::compare::Difference;
use crate::{addresses, report};
use rows::Row;

#[derive(Clone, Copy)]
struct Expected {
    member: usize,
    address: usize,
}

static EXPECTED: [Expected; 3] = [
    Expected {
        member: 2,
        address: 0x04F,
    },
    Expected {
        member: 3,
        address: 0x286,
    },
    Expected {
        member: 3,
        address: 0x287,
    },
];

// Whether a row is expected to differ so.
pub fn is_expected(row: Row, difference: Difference) -> bool {
    match difference {
        Difference::NoDot(_) => EXPECTED.iter().any(|expected| expected.member == row.member
            && expected.address == row.address),
        _ => false,
    }
}

// Whether each of them was found. It prints a line for each that was not.
fn all_found(rt: &impl Print, marks: &Marks) -> bool {
    let mut all = true;
    for expected in &EXPECTED {
        if !addresses::is_found(marks, expected.member, expected.address) {
            report::not_found(rt, expected.member, expected.address);
            all = false;
        }
    }
    all
}

// Whether each of them was found, and nothing else.
pub fn met(rt: &impl Print, marks: &Marks, disagreements: u64, broken: u64) -> bool {
    all_found(rt, marks) && disagreements == EXPECTED.len() as u64 && broken == 0
}
