// One example: Faults is called on a record, and what it answers and stores is compared with what is expected.
use crate::report;
use crate::tally::Tally;
use faults::Agreement;
use host::Record;
use map::Refusal;

// What stands in the whole buffer before a call.
const BEFORE: u8 = 0xEE;

// How many dots there are, and where the bytes behind their readings begin.
const DOTS: usize = 198;

// What is read of fault bytes.
#[derive(Clone, Copy)]
pub struct Readings {
    // those that are not 00h, by address
    pub bytes: &'static [(u8, u8)],
    // some dots, by number
    pub dots: &'static [(u8, u8)],
    // how many dots read 0, 1, 2, 3, 4 and 5
    pub counts: [u8; 6],
    // whether 064h agrees
    pub opens: bool,
    pub shorts: bool,
}

fn same(rt: &impl Print, what: &[u8], found: u8, expected: u8) -> bool {
    if found != expected {
        report::difference(rt, what, found, expected);
    }
    found == expected
}

fn same_at(rt: &impl Print, what: &[u8], number: usize, found: u8, expected: u8) -> bool {
    if found != expected {
        report::difference_at(rt, what, number, found, expected);
    }
    found == expected
}

// The fault bytes of an example.
fn fault_bytes(named: &[(u8, u8)]) -> [u8; 67] {
    let mut bytes = [0u8; 67];
    for (address, value) in named {
        let at = (*address as usize).saturating_sub(0x64);
        if at < 67 {
            bytes[at] = *value;
        }
    }
    bytes
}

fn same_answer(rt: &impl Print, answer: Result<Agreement, Refusal>, reads: &Readings) -> bool {
    match answer {
        Err(refusal) => same(rt, b"refusal ", map::refusal_number(refusal), 0),
        Ok(agrees) => {
            let opens = same(rt, b"opens agree ", agrees.opens as u8, reads.opens as u8);
            let shorts = same(
                rt,
                b"shorts agree ",
                agrees.shorts as u8,
                reads.shorts as u8,
            );
            opens && shorts
        }
    }
}

// `clear` stands for 0.
fn same_dots(rt: &impl Print, res: &[u8; 200], dots: &[(u8, u8)], clear: u8) -> bool {
    let mut all = true;
    for (dot, reading) in dots {
        let at = *dot as usize;
        let found = res.get(at).copied().unwrap_or(BEFORE);
        let expected = if *reading == 0 { clear } else { *reading };
        all = same_at(rt, b"dot ", at, found, expected) && all;
    }
    all
}

// How many dots have a reading.
fn count(res: &[u8; 200], reading: usize) -> u8 {
    let dots = &res[..DOTS];
    dots.iter().filter(|r| **r as usize == reading).count() as u8
}

fn same_counts(rt: &impl Print, res: &[u8; 200], counts: [u8; 6]) -> bool {
    let mut all = true;
    for (reading, expected) in counts.iter().enumerate() {
        all = same_at(rt, b"count of ", reading, count(res, reading), *expected) && all;
    }
    all
}

// Every byte from a place on is as it was before the call.
fn same_behind(rt: &impl Print, res: &[u8; 200], from: usize) -> bool {
    let mut all = true;
    for (at, byte) in res.iter().enumerate().skip(from) {
        all = same_at(rt, b"byte ", at, *byte, BEFORE) && all;
    }
    all
}

// The rest of an example's line, behind its name. A lamp with clear bits reads `clear` where the example has 0.
pub fn reads(rt: &impl Print, tally: &mut Tally, record: Record, reads: &Readings, clear: u8) {
    let bytes = fault_bytes(reads.bytes);
    let mut res = [BEFORE; 200];
    report::found(rt);
    let answer = faults::faults(record, &bytes, &mut res);
    let first = same_answer(rt, answer, reads);
    let second = same_dots(rt, &res, reads.dots, clear);
    let third = same_counts(rt, &res, reads.counts);
    let fourth = same_behind(rt, &res, DOTS);
    let all = first && second && third && fourth;
    report::end(rt, all);
    tally.count(all);
}

// The same for a record with so many fault bytes, all FFh, and so much room: the number of the answer. A refusal leaves the whole buffer,
// and the bytes behind the readings stay in any case.
pub fn answers(
    rt: &impl Print,
    tally: &mut Tally,
    record: Record,
    given: usize,
    room: usize,
    number: u8,
) {
    let bytes = [0xFFu8; 68];
    let mut res = [BEFORE; 200];
    report::found(rt);
    let answer = faults::faults(record, &bytes[..given.min(68)], &mut res[..room.min(200)]);
    let first = same(rt, b"answer ", faults::answer_number(answer), number);
    let second = same_behind(rt, &res, if number == 0 { DOTS } else { 0 });
    let all = first && second;
    report::end(rt, all);
    tally.count(all);
}
