// The lines of a script, one table: the first word of a line, the kinds of its other words, and the command that the line is. A line that no
// row fits is bad. A new line is a row of LINES and an arm, a new kind of numbers a row of NUMBERS.
ghost use Rattle.std.specs.Prelude.{◌≡◌, ◌+◌, map, get_or, []};
ghost use Rattle.script.specs.Words.{word_at};
ghost use Rattle.script.specs.Table.{place_of};
ghost use Rattle.script.specs.Lines.{number_kinds, kind_among, numeral_by, first_words, other_kinds, argument_of, value_at, arguments_of};
ghost use Rattle.script.specs.Lines.{part_at, entry_at, header_line, call_at, called_by, without_cr, is_silent, line_of};

use crate::bytes::is_bytes;
use crate::command::{Aside, Command, Entry, Lent, Line, Part};
use crate::{numbers, words};
use calls::{Request, Setting};

// The longest line that is a call, its LF not counted.
pub const LONGEST: usize = 8192;

// A kind of words that are numbers: the letter that it has in LINES, the base, the most digits, and the largest number. LONGEST is as many
// digits as a line has.
#[derive(Clone, Copy)]
struct NumberKind {
    letter: u8,
    base: usize,
    digits: usize,
    most: usize,
}

static NUMBERS: [NumberKind; 8] = [
    // a number
    NumberKind {
        letter: b'd',
        base: 10,
        digits: LONGEST,
        most: 4294967295,
    },
    // a number in hex
    NumberKind {
        letter: b'h',
        base: 16,
        digits: LONGEST,
        most: 4294967295,
    },
    // a byte in hex
    NumberKind {
        letter: b'b',
        base: 16,
        digits: LONGEST,
        most: 255,
    },
    // a byte
    NumberKind {
        letter: b'n',
        base: 10,
        digits: LONGEST,
        most: 255,
    },
    // an address in hex
    NumberKind {
        letter: b'a',
        base: 16,
        digits: LONGEST,
        most: 907,
    },
    // the length of a buffer
    NumberKind {
        letter: b'r',
        base: 10,
        digits: LONGEST,
        most: 8192,
    },
    // the place of a panel
    NumberKind {
        letter: b'k',
        base: 10,
        digits: LONGEST,
        most: 3,
    },
    // a mark of presence for each place
    NumberKind {
        letter: b'm',
        base: 10,
        digits: LONGEST,
        most: 15,
    },
];

// The kinds of other words. A kind is a letter and no enum, so that a row of LINES stays one short line.
// A byte string
const BYTES: u8 = b's';
// `settings`, `image` or `chip`
const PART: u8 = b'p';
// `member`, `bus`, `pins` or `lock`
const ENTRY: u8 = b'e';
// `on` or `off`
const ON_OFF: u8 = b'o';

// The first word of a line, and the kinds of its other words.
#[derive(Clone, Copy)]
struct Form(&'static [u8], &'static [u8]);

// The settings that are lent nothing stand first: row n is arm n of `call`, and row 4 + n arm n of `other`.
static LINES: [Form; 28] = [
    Form(b"register", b"hb"),
    Form(b"lamp", b"ddd"),
    Form(b"group", b"ddd"),
    Form(b"switch", b"ddd"),
    Form(b"open", b"ddd"),
    Form(b"scene", b"s"),
    Form(b"update", b"r"),
    Form(b"reset", b"r"),
    Form(b"power", b""),
    Form(b"clear", b"r"),
    Form(b"feed", b"s"),
    Form(b"faults", b"sr"),
    Form(b"settings", b""),
    Form(b"image", b""),
    Form(b"chip", b""),
    Form(b"poke", b"pab"),
    Form(b"header", b"en"),
    Form(b"check", b""),
    Form(b"lamps", b"p"),
    Form(b"diff", b""),
    Form(b"faultmap", b"s"),
    Form(b"echo", b"o"),
    Form(b"list", b""),
    Form(b"pending", b""),
    Form(b"panel", b"k"),
    Form(b"round", b"mdr"),
    Form(b"lock", b""),
    Form(b"marks", b""),
];

// What a line is, by its row and what its other words say.
#[tactic(auto, unfolding(crate::specs::Lines::call_at, crate::specs::Lines::line_at, crate::specs::Lines::lines))]
fn call(row: usize, first: usize, second: usize, third: usize) -> Line
    ensures { result ≡ call_at row first second third }
{
    let setting = match row {
        0 => Setting::Register {
            address: first,
            value: second,
        },
        1 => Setting::Lamp {
            line: first,
            sink: second,
            level: third,
        },
        2 => Setting::Group {
            line: first,
            sink: second,
            group: third,
        },
        3 => Setting::Switch {
            line: first,
            sink: second,
            state: third,
        },
        _ => return other(row - 4, first, second, third),
    };
    Line::Run(Command::Call(Request::Set(setting), Lent::Nothing))
}

fn other(place: usize, first: usize, second: usize, third: usize) -> Line
    ensures { result ≡ call_at (4 + place) first second third }
{
    match place {
        0 => Line::Run(Command::Open(first, second, third)),
        1 => Line::Run(Command::Call(Request::Set(Setting::Scene), Lent::Word(1))),
        2 => Line::Run(Command::Call(Request::Update, Lent::Room(first))),
        3 => Line::Run(Command::Call(Request::Reset, Lent::Room(first))),
        4 => Line::Run(Command::Call(Request::PowerLost, Lent::Nothing)),
        5 => Line::Run(Command::Clear(first)),
        6 => Line::Run(Command::Feed(1)),
        7 => Line::Run(Command::Faults(1, second)),
        8 => Line::Run(Command::Show(Part::Settings)),
        9 => Line::Run(Command::Show(Part::Image)),
        10 => Line::Run(Command::Show(Part::Chip)),
        11 => Line::Run(Command::Poke(part(first), second, third)),
        12 => header(entry(first), second),
        13 => Line::Run(Command::Check),
        14 => Line::Aside(Aside::Lamps(part(first))),
        15 => Line::Aside(Aside::Diff),
        16 => Line::Aside(Aside::FaultMap(1)),
        17 => Line::Aside(Aside::Echo(first == 0)),
        18 => Line::Aside(Aside::List),
        19 => Line::Run(Command::Pending),
        20 => Line::Panel(first),
        21 => Line::Round(first, second, third),
        22 => Line::Run(Command::Call(Request::Lock, Lent::Nothing)),
        23 => Line::Run(Command::Marks),
        _ => Line::Run(Command::Bad),
    }
}

#[tactic(auto, unfolding(crate::specs::Lines::part_at))]
fn part(place: usize) -> Part
    ensures { result ≡ part_at place }
{
    match place {
        0 => Part::Settings,
        1 => Part::Image,
        _ => Part::Chip,
    }
}

#[tactic(auto, unfolding(crate::specs::Lines::entry_at))]
fn entry(place: usize) -> Entry
    ensures { result ≡ entry_at place }
{
    match place {
        0 => Entry::Member,
        1 => Entry::Bus,
        2 => Entry::Pins,
        _ => Entry::Lock,
    }
}

// What `header W V` is: a lock's mark above 1 makes it bad.
#[tactic(auto, unfolding(crate::specs::Lines::header_line))]
fn header(entry: Entry, value: usize) -> Line
    ensures { result ≡ header_line entry value }
{
    match entry {
        Entry::Lock if 1 < value => Line::Run(Command::Bad),
        _ => Line::Run(Command::Header(entry, value)),
    }
}

// The place of a word among others, where it is one of them.
fn named(word: &[u8], names: &[&[u8]]) -> Option<usize>
    ensures { result ≡ place_of word.now (map (λ x. x.now) names.now) }
{
    names.iter().position(|name| word == *name)
}

// The kind of numbers that has a letter.
fn number_kind(letter: u8) -> Option<NumberKind>
    ensures { result ≡ kind_among number_kinds letter }
{
    NUMBERS.iter().find(|kind| kind.letter == letter).copied()
}

#[tactic(auto, unfolding(crate::specs::Lines::numeral_by))]
fn number(letter: u8, word: &[u8]) -> Option<usize>
    ensures { result ≡ numeral_by (kind_among number_kinds letter) word.now }
{
    let kind = number_kind(letter)?;
    numbers::read(word, kind.base, kind.digits, kind.most)
}

// What a word of a kind says; a byte string stays in its line, and says 0.
#[tactic(auto, unfolding(crate::specs::Lines::argument_of, crate::specs::Lines::parts, crate::specs::Lines::entries, crate::specs::Lines::switches, crate::specs::Words::codes))]
fn argument(kind: u8, word: &[u8]) -> Option<usize>
    ensures { result ≡ argument_of kind word.now }
{
    match kind {
        BYTES => is_bytes(word).then_some(0),
        PART => named(word, &[b"settings", b"image", b"chip"]),
        ENTRY => named(word, &[b"member", b"bus", b"pins", b"lock"]),
        ON_OFF => named(word, &[b"on", b"off"]),
        _ => number(kind, word),
    }
}

// What word n behind the first says; 0 where a row has no such word.
#[tactic(auto, unfolding(crate::specs::Lines::value_at))]
fn value(line: &[u8], kinds: &[u8], n: usize) -> Option<usize>
    ensures { result ≡ value_at kinds.now line.now n }
{
    match kinds.get(n) {
        Some(kind) => argument(*kind, words::word(line, n + 1)),
        None => Some(0),
    }
}

// What the words behind the first say, three at most.
#[tactic(auto, unfolding(crate::specs::Lines::arguments_of, crate::specs::Lines::three_of))]
fn arguments(line: &[u8], kinds: &[u8]) -> Option<(usize, usize, usize)>
    ensures { result ≡ arguments_of kinds.now line.now }
{
    if words::count(line) != kinds.len() + 1 {
        return None;
    }
    Some((
        value(line, kinds, 0)?,
        value(line, kinds, 1)?,
        value(line, kinds, 2)?,
    ))
}

// The table of lines: its first words are those of the language's lines, and its kinds those of their other words.
#[tactic(auto, unfolding(crate::specs::Lines::first_words, crate::specs::Lines::other_kinds, crate::specs::Lines::lines, crate::specs::Words::codes))]
fn line_table() -> &'static [Form]
    ensures words { map (λ f. f.0.now) result.now ≡ first_words }
    ensures kinds { map (λ f. f.1.now) result.now ≡ other_kinds }
{
    &LINES
}

// The row of a line's first word.
fn row_of(lines: &[Form], word: &[u8]) -> Option<usize>
    ensures { result ≡ place_of word.now (map (λ f. f.0.now) lines.now) }
{
    lines.iter().position(|form| word == form.0)
}

// The kinds of the other words of a row; none where there is no such row.
fn kinds_of(lines: &[Form], row: usize) -> &'static [u8]
    ensures { result.now ≡ get_or (map (λ f. f.1.now) lines.now) row [] }
{
    match lines.get(row) {
        Some(form) => form.1,
        None => &[],
    }
}

// A line without the CR at its end.
#[tactic(auto, unfolding(crate::specs::Lines::without_cr))]
pub fn trimmed(line: &[u8]) -> &[u8]
    ensures { result.now ≡ without_cr line.now }
{
    match line {
        [rest @ .., b'\r'] => rest,
        _ => line,
    }
}

// Whether a line is a comment, or empty.
#[tactic(auto, unfolding(crate::specs::Lines::is_silent))]
pub fn is_silent(line: &[u8]) -> bool
    ensures { result ≡ is_silent line.now }
{
    line.is_empty() || line[0] == b'#'
}

// What a line with a row is, where its words are of the row's kinds.
#[tactic(auto, unfolding(crate::specs::Lines::called_by, crate::specs::Lines::judged))]
fn called(line: &[u8]) -> Option<Line>
    ensures { result ≡ called_by (place_of (word_at line.now 0) first_words) line.now }
{
    let lines = line_table();
    let row = row_of(lines, words::word(line, 0))?;
    let (first, second, third) = arguments(line, kinds_of(lines, row))?;
    Some(call(row, first, second, third))
}

// What a line is.
#[tactic(auto, unfolding(crate::specs::Lines::line_of, crate::specs::Lines::table_line, crate::specs::Words::codes))]
pub fn read(line: &[u8]) -> Line
    ensures { result ≡ line_of line.now }
{
    if is_silent(line) {
        return Line::Aside(Aside::Silent);
    }
    if line == b"lamps".as_slice() {
        return Line::Aside(Aside::Lamps(Part::Chip));
    }
    if LONGEST < line.len() {
        return Line::Run(Command::Bad);
    }
    called(line).unwrap_or(Line::Run(Command::Bad))
}
