// A line as a command, as an aside, or as a line about the four panels.
use calls::Request;

// The bytes that are lent to a call.
#[derive(Clone, Copy)]
pub enum Lent {
    Nothing,
    // the byte string that is this word of the line
    Word(usize),
    // a buffer of so many bytes
    Room(usize),
}

// 908 bytes of the script's record or chip.
#[derive(Clone, Copy)]
pub enum Part {
    Settings,
    Image,
    Chip,
}

// What a record and a chip have beside their bytes.
#[derive(Clone, Copy)]
pub enum Entry {
    Member,
    Bus,
    Pins,
    // the lock's mark, which no chip has
    Lock,
}

// A line that makes no call and changes no record and no chip.
#[derive(Clone, Copy)]
pub enum Aside {
    // a comment, or an empty line
    Silent,
    // on or off
    Echo(bool),
    // a picture of the lamps
    Lamps(Part),
    // the byte string that is this word of the line
    FaultMap(usize),
    Diff,
    List,
}

// A call of a panel, with the bytes that are lent to it, or a line of the script's own.
#[derive(Clone, Copy)]
pub enum Command {
    Bad,
    // member, bus and pins
    Open(usize, usize, usize),
    Call(Request, Lent),
    // with a buffer of so many bytes
    Clear(usize),
    // the byte string that is this word of the line
    Feed(usize),
    // the word that is the byte string, and the length of the result buffer
    Faults(usize, usize),
    Show(Part),
    // at an address, a value
    Poke(Part, usize, usize),
    Header(Entry, usize),
    Check,
    // what an update would send now
    Pending,
    // what the record is marked as
    Marks,
}

// What a line of a script is: a command and an aside are about the current panel. A line that is none of these is a bad command.
#[derive(Clone, Copy)]
pub enum Line {
    Run(Command),
    Aside(Aside),
    // the panel of this place is the current one from here on
    Panel(usize),
    // a round: its marks, bit k that of place k, its B, and the length of its buffer
    Round(usize, usize, usize),
}
