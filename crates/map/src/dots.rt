// Dots, their numbers, and the places of their bits.
ghost use Rattle.std.specs.Prelude.{◌≡◌, ◌<◌};
ghost use Rattle.map.specs.Map.{has_column, dot_in, number_in, is_dot, number_of, dot_of, width_of, place_as, place_of};

use crate::members;

// A line and a sink of it.
#[derive(Clone, Copy)]
pub struct Dot {
    pub line: usize,
    pub sink: usize,
}

// What a dot has in the registers.
#[derive(Clone, Copy, PartialEq, Eq)]
pub enum Field {
    Group,
    Switch,
    Open,
    Short,
    Current,
    Pwm8,
    // the low byte of 16 bits; the high byte is at the next address
    Pwm16,
}

// An address and the lowest bit of a field there.
#[derive(Clone, Copy)]
pub struct Place {
    pub address: usize,
    pub shift: usize,
}

// How many bits a field has.
#[tactic(auto, unfolding(crate::specs::Map::width_of))]
pub fn width_of(field: Field) -> usize
    ensures { result ≡ width_of field }
{
    match field {
        Field::Group => 2,
        Field::Switch | Field::Open | Field::Short => 1,
        Field::Current | Field::Pwm8 => 8,
        Field::Pwm16 => 16,
    }
}

// Whether a column set has a sink.
#[tactic(auto, unfolding(crate::specs::Map::has_column))]
pub(crate) fn has_column(columns: u32, sink: usize) -> bool
    ensures { result ≡ has_column columns sink }
{
    sink < 18 && (columns >> sink) % 2 == 1
}

// Whether a chip of so many lines and such columns has the dot.
#[tactic(auto, unfolding(crate::specs::Map::dot_in))]
pub fn dot_in(lines: usize, columns: u32, line: usize, sink: usize) -> bool
    ensures { result ≡ dot_in lines columns line sink }
{
    line < lines && has_column(columns, sink)
}

// The same for the dot of a number.
#[tactic(auto, unfolding(crate::specs::Map::number_in))]
pub fn number_in(lines: usize, columns: u32, number: usize) -> bool
    ensures { result ≡ number_in lines columns number }
{
    dot_in(lines, columns, number / 18, number % 18)
}

#[tactic(auto, unfolding(crate::specs::Map::is_dot))]
pub fn is_dot(member: usize, line: usize, sink: usize) -> bool
    ensures { result ≡ is_dot member line sink }
{
    dot_in(members::lines(member), members::columns(member), line, sink)
}

// A dot's number, where the member has the dot.
#[tactic(auto, using(crate::specs::MapLaws::dot_line, crate::specs::MapLaws::dot_sink, crate::specs::MapLaws::lines_most), unfolding(crate::specs::Map::number_of))]
pub fn dot_number(member: usize, line: usize, sink: usize) -> Option<usize>
    ensures { result ≡ number_of member line sink }
{
    if is_dot(member, line, sink) {
        Some(18 * line + sink)
    } else {
        None
    }
}

// The dot that a number names, where the member has it.
#[tactic(auto, unfolding(crate::specs::Map::dot_of))]
pub fn dot_of(member: usize, number: usize) -> Option<Dot>
    ensures { result ≡ dot_of member number }
{
    let line = number / 18;
    let sink = number % 18;
    if is_dot(member, line, sink) {
        Some(Dot { line, sink })
    } else {
        None
    }
}

// The place by its formula, for a line and a sink of the LP5860.
#[tactic(auto, unfolding(crate::specs::Map::place_as, crate::specs::Map::address_of, crate::specs::Map::shift_of))]
fn place_as(field: Field, line: usize, sink: usize) -> Place
    requires { (line < 11) × (sink < 18) }
    ensures { result ≡ place_as field line sink }
{
    let number = 18 * line + sink;
    match field {
        Field::Group => Place {
            address: 0x00C + 5 * line + sink / 4,
            shift: 2 * (sink % 4),
        },
        Field::Switch => Place {
            address: 0x043 + 3 * line + sink / 8,
            shift: sink % 8,
        },
        Field::Open => Place {
            address: 0x065 + 3 * line + sink / 8,
            shift: sink % 8,
        },
        Field::Short => Place {
            address: 0x086 + 3 * line + sink / 8,
            shift: sink % 8,
        },
        Field::Current => Place {
            address: 0x100 + number,
            shift: 0,
        },
        Field::Pwm8 => Place {
            address: 0x200 + number,
            shift: 0,
        },
        Field::Pwm16 => Place {
            address: 0x200 + 2 * number,
            shift: 0,
        },
    }
}

// Where a field of a dot stands, where the member has the dot.
#[tactic(auto, using(crate::specs::MapLaws::dot_line, crate::specs::MapLaws::dot_sink, crate::specs::MapLaws::lines_most), unfolding(crate::specs::Map::place_of))]
pub fn place_of(field: Field, member: usize, line: usize, sink: usize) -> Option<Place>
    ensures { result ≡ place_of field member line sink }
{
    if !is_dot(member, line, sink) {
        return None;
    }
    Some(place_as(field, line, sink))
}
