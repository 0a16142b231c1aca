// One row of a data sheet's summary table, as a line of text. Its words, separated by single spaces, are
//
//     member address type default mask holds dot ..
//
// The member is a code from 0 to 4. The address has three hexadecimal digits, at most 38B; the default and the mask of the
// bits that are printed as reserved have two. The default is `--` where the data sheet's text has lost it. The type is RW, R
// or W. The sixth word says what the byte holds, and so which words follow:
//
//     plain                         none
//     group, switch, open, short    for bit 0 up to bit 7, the dot that the bit is for
//     current                       its dot
//     pwm                           the dot whose 8 bits these are, whose low byte of 16, whose high byte of 16
//
// A dot is LINE.SINK, each a decimal of one or two digits. For a bit, and after pwm, `-` stands for no dot.
#![tactic(auto)]

ghost use Rattle.std.specs.Prelude.{◌≤◌, IfSome};

// The types.
#[derive(Clone, Copy, PartialEq, Eq)]
pub enum Access {
    Read,
    Write,
    ReadWrite,
}

#[derive(Clone, Copy, PartialEq, Eq)]
pub enum Holds {
    Plain,
    Group,
    Switch,
    Open,
    Short,
    Current,
    Pwm,
}

#[derive(Clone, Copy)]
pub struct Row {
    pub member: usize,
    pub address: usize,
    pub access: Access,
    // none where the text has lost it
    pub default: Option<usize>,
    pub mask: usize,
    pub holds: Holds,
}

// A dot that a word names.
#[derive(Clone, Copy)]
pub struct Dot {
    pub line: usize,
    pub sink: usize,
}

// That a word names neither a dot nor that there is none.
#[derive(Clone, Copy)]
pub struct Unknown;

// How many words follow the sixth, each a dot or `-`.
pub fn names(holds: Holds) -> usize
    ensures { result ≤ 8 }
{
    match holds {
        Holds::Plain => 0,
        Holds::Current => 1,
        Holds::Pwm => 3,
        Holds::Group | Holds::Switch | Holds::Open | Holds::Short => 8,
    }
}

// Word n, counted from 0; empty where there is none.
fn word(text: &[u8], n: usize) -> &[u8] {
    text.split(|byte| *byte == b' ').nth(n).unwrap_or(&[])
}

// How many words a line has.
fn count(text: &[u8]) -> usize {
    text.split(|byte| *byte == b' ').count()
}

// The value of a digit.
fn digit(byte: u8) -> Option<usize>
    ensures { IfSome result (λ d. d ≤ 15) }
{
    match byte {
        b'0'..=b'9' => Some((byte - b'0') as usize),
        b'A'..=b'F' => Some((byte - b'A') as usize + 10),
        _ => None,
    }
}

// A hexadecimal number of so many digits, three at most.
fn number(text: &[u8], least: usize, most: usize) -> Option<usize>
    ensures { IfSome result (λ n. n ≤ 4095) }
{
    if text.len() < least || most < text.len() {
        return None;
    }
    let mut value: usize = 0;
    for byte in text {
        if 0xFF < value {
            return None;
        }
        value = 16 * value + digit(*byte)?;
    }
    Some(value)
}

// A decimal of one or two digits.
fn decimal(text: &[u8]) -> Option<usize> {
    let value = number(text, 1, 2)?;
    let tens = value / 16;
    let ones = value % 16;
    if 9 < tens || 9 < ones {
        return None;
    }
    Some(10 * tens + ones)
}

fn read_access(text: &[u8]) -> Option<Access> {
    match text {
        b"RW" => Some(Access::ReadWrite),
        b"R" => Some(Access::Read),
        b"W" => Some(Access::Write),
        _ => None,
    }
}

// A default, or that it is lost.
fn read_default(text: &[u8]) -> Option<Option<usize>> {
    match text {
        b"--" => Some(None),
        _ => number(text, 2, 2).map(Some),
    }
}

fn read_holds(text: &[u8]) -> Option<Holds> {
    match text {
        b"plain" => Some(Holds::Plain),
        b"group" => Some(Holds::Group),
        b"switch" => Some(Holds::Switch),
        b"open" => Some(Holds::Open),
        b"short" => Some(Holds::Short),
        b"current" => Some(Holds::Current),
        b"pwm" => Some(Holds::Pwm),
        _ => None,
    }
}

fn read_dot(text: &[u8]) -> Option<Dot> {
    let point = text.iter().position(|byte| *byte == b'.')?;
    let line = decimal(&text[..point])?;
    let sink = decimal(&text[point + 1..])?;
    Some(Dot { line, sink })
}

// What the row names for the bit or byte at an index: a dot, or that there is none. A row names eight at most.
pub fn name_at(text: &[u8], holds: Holds, index: usize) -> Result<Option<Dot>, Unknown> {
    if 8 <= index {
        return Err(Unknown);
    }
    match word(text, 6 + index) {
        b"-" if holds != Holds::Current => Ok(None),
        text => read_dot(text).map(Some).ok_or(Unknown),
    }
}

fn is_row(text: &[u8], row: Row) -> bool {
    row.member <= 4
        && row.address <= 0x38B
        && count(text) == 6 + names(row.holds)
        && (0..names(row.holds)).all(|index| name_at(text, row.holds, index).is_ok())
}

pub fn parse(text: &[u8]) -> Option<Row> {
    let row = Row {
        member: number(word(text, 0), 1, 1)?,
        address: number(word(text, 1), 3, 3)?,
        access: read_access(word(text, 2))?,
        default: read_default(word(text, 3))?,
        mask: number(word(text, 4), 2, 2)?,
        holds: read_holds(word(text, 5))?,
    };
    is_row(text, row).then_some(row)
}
