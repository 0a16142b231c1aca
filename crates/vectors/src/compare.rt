// One row against the register map. Each comparison answers whether row and map agree; none prints.
use map::{Field, Kind, Place};
use rows::{Access, Dot, Holds, Row, Unknown};

// How many addresses there are.
pub const ADDRESSES: usize = 908;

// In what row and map differ.
#[derive(Clone, Copy)]
pub enum Difference {
    // that another row of the member has the address
    Twice,
    // the map's reset value
    Default(usize),
    // a dot that the row names and the chip has not
    NoDot(Dot),
    // the map's type, where it has one, and whether the address is writable
    Access(Option<Access>, bool),
    // the map's reserved bits
    Reserved(usize),
    // an index, the dot that the row names there, and the map's place for it
    Place(usize, Dot, Option<Place>),
    // an index at which the row names no dot and the map has one
    Unnamed(usize),
}

pub type Comparison = Result<(), Difference>;

fn agrees_or(agrees: bool, difference: Difference) -> Comparison {
    if agrees { Ok(()) } else { Err(difference) }
}

// None where the row has lost its default.
pub fn default(row: Row) -> Option<Comparison> {
    let default = row.default?;
    let reset = map::reset_value(row.member, row.address) as usize;
    Some(agrees_or(default == reset, Difference::Default(reset)))
}

// Whether the chip has each dot that the row names; where not, the first that it has not. None where a row can name none.
pub fn dots(text: &[u8], row: Row) -> Option<Comparison> {
    let count = rows::names(row.holds);
    for index in 0..count {
        if let Ok(Some(dot)) = rows::name_at(text, row.holds, index) {
            if !map::is_dot(row.member, dot.line, dot.sink) {
                return Some(Err(Difference::NoDot(dot)));
            }
        }
    }
    if count == 0 { None } else { Some(Ok(())) }
}

// The type that the map has for a kind.
fn access_of(kind: Kind) -> Option<Access> {
    match kind {
        Kind::FaultState | Kind::Open | Kind::Short => Some(Access::Read),
        Kind::Command => Some(Access::Write),
        Kind::Hole => None,
        Kind::Config | Kind::Group | Kind::Switch | Kind::Current | Kind::Pwm => {
            Some(Access::ReadWrite)
        }
    }
}

// An address of type RW is writable unless all its bits are reserved, and no other is writable.
pub fn access(row: Row) -> Comparison {
    let access = access_of(map::kind_at(row.address));
    let writable = map::writable(row.member, row.address);
    let printed = row.access == Access::ReadWrite && row.mask != 0xFF;
    agrees_or(
        access == Some(row.access) && printed == writable,
        Difference::Access(access, writable),
    )
}

// The map's reserved bits; all of them where the row stands before the bytes of its kind. Open and short bytes are laid out as the
// switch bytes from 043h on, and have theirs.
fn reserved_bits(row: Row) -> usize {
    let before = match row.holds {
        Holds::Open => 0x065 - 0x043,
        Holds::Short => 0x086 - 0x043,
        _ => 0,
    };
    let address = row.address.checked_sub(before);
    address.map_or(0xFF, |address| map::reserved(row.member, address) as usize)
}

// Of the fault state and the commands the map does not say which bits are reserved.
pub fn reserved(row: Row) -> Option<Comparison> {
    if row.holds == Holds::Plain && row.access != Access::ReadWrite {
        return None;
    }
    let reserved = reserved_bits(row);
    Some(agrees_or(row.mask == reserved, Difference::Reserved(reserved)))
}

fn field_of(holds: Holds, index: usize) -> Field {
    match holds {
        Holds::Group => Field::Group,
        Holds::Switch => Field::Switch,
        Holds::Open => Field::Open,
        Holds::Short => Field::Short,
        Holds::Pwm if index == 0 => Field::Pwm8,
        Holds::Pwm => Field::Pwm16,
        // a current, since no other row names a dot
        Holds::Current | Holds::Plain => Field::Current,
    }
}

pub fn is_at(place: Place, at: usize, bit: usize) -> bool {
    place.address == at && place.shift == bit
}

// Whether the place is the row's at an index. A group has two bits; a high byte of 16 bits stands behind the low one.
fn is_place(place: Place, row: Row, index: usize) -> bool {
    match (row.holds, index) {
        (Holds::Group, _) => is_at(place, row.address, index - index % 2),
        (Holds::Pwm, 2) => row
            .address
            .checked_sub(1)
            .is_some_and(|low| is_at(place, low, 0)),
        (Holds::Pwm, _) => is_at(place, row.address, 0),
        _ => is_at(place, row.address, index),
    }
}

// Whether the map has no dot whose 8 bits, low byte of 16 or high byte of 16 stand at an offset from 200h. Low bytes have
// even offsets, high bytes odd ones.
fn no_level(member: usize, offset: usize, index: usize) -> bool {
    if index == 0 {
        return map::dot_of(member, offset).is_none();
    }
    offset % 2 != index - 1 || map::dot_of(member, offset / 2).is_none()
}

// Whether the map has no dot for the bit or byte at an index.
fn is_unnamed(row: Row, index: usize) -> bool {
    if row.holds == Holds::Pwm {
        let offset = row.address.checked_sub(0x200);
        return offset.is_none_or(|offset| no_level(row.member, offset, index));
    }
    index < 8 && (reserved_bits(row) >> index) % 2 == 1
}

// The bit or byte at an index, and what the row names for it.
pub fn place(row: Row, index: usize, named: Result<Option<Dot>, Unknown>) -> Comparison {
    let Ok(Some(dot)) = named else {
        return agrees_or(is_unnamed(row, index), Difference::Unnamed(index));
    };
    let place = map::place_of(field_of(row.holds, index), row.member, dot.line, dot.sink);
    agrees_or(
        place.is_some_and(|place| is_place(place, row, index)),
        Difference::Place(index, dot, place),
    )
}

pub fn writable_addresses(member: usize) -> u64 {
    (0..ADDRESSES)
        .filter(|address| map::writable(member, *address))
        .count() as u64
}
