// Compares the rows of the five data sheets' summary tables, in the file that its argument names, with the register
// map, and what the map has for the addresses in no row with document 01. It prints a line for each disagreement and for each
// line that does not parse, then what it counted, and at last whether the disagreements are the expected ones and no others.
#![tactic(auto)]

mod addresses;
mod compare;
mod examples;
mod expected;
mod lines;
mod report;
mod tally;

use addresses::Marks;
use std::env::Env;
use std::fs::Files;
use std::io::Read;
use std::{fs, io};
use tally::{Count, Tally};

// No row is longer: a line that is does not parse.
const ROOM: usize = 80;

// The longest path, and the system's numbers for the errors of one that is longer or no UTF-8 text.
const PATH: usize = 4096;

const TOO_LONG: i32 = 36;

const NOT_TEXT: i32 = 84;

#[derive(Drop)]
struct Reader {
    line: [u8; ROOM],
    // none where the line is longer than its room
    length: Option<usize>,
    tally: Tally,
    // whether the last read moved a byte: none does at the file's end
    more: bool,
}

impl Reader {
    fn new() -> Reader {
        Reader {
            line: [0u8; ROOM],
            length: Some(0),
            tally: Tally::default(),
            more: true,
        }
    }

    fn end_line(&mut self, rt: &impl Print, marks: &mut Marks) {
        self.tally.lines = self.tally.lines.saturating_add(1);
        match self.length.and_then(|length| self.line.get(..length)) {
            Some(line) => lines::counted(rt, &mut self.tally, line, marks),
            None => lines::broken(rt, &mut self.tally),
        }
        self.length = Some(0);
    }

    fn take(&mut self, rt: &impl Print, byte: u8, marks: &mut Marks) {
        if byte == b'\n' {
            self.end_line(rt, marks);
            return;
        }
        self.length = match self.length {
            Some(length) if length < ROOM => {
                self.line[length] = byte;
                Some(length + 1)
            }
            _ => None,
        };
    }

    fn read_some(
        &mut self,
        rt: &impl Print,
        file: &mut impl Read,
        marks: &mut Marks,
    ) -> io::Result<()> {
        let mut buffer = [0u8; 512];
        let n = file.read(&mut buffer)?;
        for byte in &buffer[..n] {
            self.take(rt, *byte, marks);
        }
        self.more = 0 < n;
        Ok(())
    }
}

// A proved loop has to end, and nothing says that a file does. So the loop counts its turns, up to a number that no run uses up.
fn read_all(rt: &impl Print, file: &mut impl Read, marks: &mut Marks) -> io::Result<Tally> {
    let mut reader = Reader::new();
    for _ in 0..u64::MAX {
        if !reader.more {
            break;
        }
        reader.read_some(rt, file, marks)?;
    }
    // the last line of the file may lack its line end
    if reader.length != Some(0) {
        reader.end_line(rt, marks);
    }
    Ok(reader.tally)
}

// A member's rows must be of all its writable addresses.
fn member_counted(rt: &impl Print, member: usize, count: &mut Count, marks: &Marks) {
    addresses::counted(rt, count, member, marks);
    let writable = compare::writable_addresses(member);
    let agrees = count.writable == writable;
    if !agrees {
        report::missing(rt, member, count.writable, writable);
    }
    count.compared(agrees);
    report::member(rt, member, *count);
}

fn finish(rt: &impl Print, mut tally: Tally, marks: &Marks) {
    let mut total = Count::default();
    for (member, count) in tally.members.iter_mut().enumerate() {
        member_counted(rt, member, count, marks);
        total.add(*count);
    }
    total.add(examples::run(rt));
    report::total(rt, total, tally.broken);
    report::verdict(
        rt,
        expected::met(rt, marks, total.disagreements, tally.broken),
    );
}

// Compares the file that a path names, or says on standard error why it cannot.
fn compare_file(rt: &(impl Files + Print), err: &impl Print, path: &[u8]) {
    let Ok(name) = std::str::from_utf8(path) else {
        let error = io::Error::from_raw_os_error(NOT_TEXT);
        report::failed(err, b"vectors: cannot open ", path, &error);
        return;
    };
    let mut file = match fs::open(rt, name) {
        Ok(file) => file,
        Err(error) => {
            report::failed(err, b"vectors: cannot open ", path, &error);
            return;
        }
    };
    let mut marks = addresses::unmarked();
    match read_all(rt, &mut file, &mut marks) {
        Ok(tally) => finish(rt, tally, &marks),
        Err(error) => report::failed(err, b"vectors: cannot read ", path, &error),
    }
}

fn main(rt: HostRuntime) {
    let err = rt.stderr();
    if console::arg_count(&rt) != 2 {
        report::usage(&err);
        return;
    }
    let mut path = [0u8; PATH];
    match rt.arg(1, &mut path) {
        Ok(length) => compare_file(&rt, &err, &path[..length]),
        Err(_) => {
            let error = io::Error::from_raw_os_error(TOO_LONG);
            report::failed(&err, b"vectors: ", b"cannot take its argument", &error);
        }
    }
}
