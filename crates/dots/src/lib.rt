// The level, group and switch of a dot, read and put in an image.
//
// An image is 908 bytes, one for each register, and any other number is taken too: a byte beyond the end reads as 0 and is not stored. A
// level stands at 200h, in 8 or 16 bits by the data mode in 001h of the same image. A group, a switch or any other field of a dot
// stands in the bits of one byte, which `map` gives, and the other bits of that byte stay.
#![tactic(auto)]

ghost use Rattle.std.specs.Prelude.{◌≡◌, cond, ◌+◌, ◌-◌, ◌/◌, ◌%◌, ◌^◌, ◌<◌, ◌≤◌, get_or, set};
ghost use Rattle.map.specs.Map.{is_dot, width_of, data_mode, is_wide};
ghost use Rattle.dots.specs.Dots.{wide_of, top_level, level_of, put_level, put_bits, field_of, put_field};
ghost use Rattle.dots.specs.Bits.{bits_in};

use map::{Field, Place};

// A byte of an image, 0 beyond its end.
fn byte_at(image: &[u8], address: usize) -> u8
    ensures { result ≡ get_or image.now address 0 }
{
    image.get(address).copied().unwrap_or(0)
}

// Beyond the end nothing is stored. (An index: what `get_mut` leaves of the slice where there is no such byte is not known to the check.)
fn put_byte(image: &mut [u8], address: usize, value: u8)
    ensures { image.new ≡ set image.old address value }
{
    if address < image.len() {
        image[address] = value;
    }
}

// Whether a byte of 001h has a data mode of 16-bit levels.
#[tactic(auto, unfolding(map::specs::Map::is_wide, map::specs::Map::data_mode))]
pub fn is_wide(byte: u8) -> bool
    ensures { result ≡ is_wide (data_mode byte) }
{
    2 <= byte / 2 % 4
}

// Whether an image has levels of 16 bits.
#[tactic(auto, unfolding(crate::specs::Dots::wide_of))]
pub fn wide(image: &[u8]) -> bool
    ensures { result ≡ wide_of image.now }
{
    is_wide(byte_at(image, 0x001))
}

// The largest level that the data mode of an image holds.
#[tactic(auto, unfolding(crate::specs::Dots::top_level))]
pub fn top_level(image: &[u8]) -> usize
    ensures { result ≡ top_level image.now }
{
    if wide(image) { 65535 } else { 255 }
}

// The level of the dot with this number, in the data mode of the image.
pub fn level(image: &[u8], number: u8) -> usize
    ensures { (result ≡ level_of image.now number) × (result < 65536) }
{
    level_as(image, wide(image), number)
}

// The same for a caller that reads many levels and has asked for the data mode once.
#[tactic(auto, unfolding(crate::specs::Dots::level_of))]
pub fn level_as(image: &[u8], wide: bool, number: u8) -> usize
    ensures { wide ≡ wide_of image.now → (result ≡ level_of image.now number) × (result < 65536) }
{
    let dot = number as usize;
    if !wide {
        return byte_at(image, 0x200 + dot) as usize;
    }
    let low = byte_at(image, 0x200 + 2 * dot) as usize;
    let high = byte_at(image, 0x200 + 2 * dot + 1) as usize;
    low + 256 * high
}

// The low 8 or 16 bits of a level, by the data mode of the image.
pub fn put_level(image: &mut [u8], number: u8, level: usize)
    ensures { image.new ≡ put_level image.old number level }
{
    put_level_as(image, wide(image), number, level);
}

// The same for a caller that puts many levels and has asked for the data mode once.
#[tactic(auto, unfolding(crate::specs::Dots::put_level))]
pub fn put_level_as(image: &mut [u8], wide: bool, number: u8, level: usize)
    ensures { wide ≡ wide_of image.old → image.new ≡ put_level image.old number level }
{
    let dot = number as usize;
    let low = (level % 256) as u8;
    if !wide {
        put_byte(image, 0x200 + dot, low);
        return;
    }
    put_word(image, 0x200 + 2 * dot, low, (level / 256 % 256) as u8);
}

// Two bytes, the low one first, with one test of the end where both are inside.
fn put_word(image: &mut [u8], at: usize, low: u8, high: u8)
    requires { at < 1024 }
    ensures { image.new ≡ set (set image.old at low) (at + 1) high }
{
    if at + 1 < image.len() {
        image[at] = low;
        image[at + 1] = high;
        return;
    }
    put_byte(image, at, low);
}

// The bits of a field in its byte, moved down to bit 0.
#[tactic(auto, unfolding(crate::specs::Bits::bits_in, map::specs::Map::width_of))]
fn mask_of(which: Field) -> u8
    ensures { result ≡ 2 ^ bits_in which - 1 }
{
    match which {
        Field::Group => 3,
        Field::Switch | Field::Open | Field::Short => 1,
        Field::Current | Field::Pwm8 | Field::Pwm16 => 255,
    }
}

// A byte with the low bits of a value in those of a field.
fn put_bits(which: Field, byte: u8, shift: usize, value: u8) -> u8
    requires { shift + bits_in which ≤ 8 }
    ensures { result ≡ put_bits shift (bits_in which) byte (value % 2 ^ bits_in which) }
{
    let mask = mask_of(which);
    let old = (byte >> shift) & mask;
    byte - (old << shift) + ((value & mask) << shift)
}

// A field of a dot, 0 where the member has not the dot.
pub fn field(which: Field, member: usize, image: &[u8], line: usize, sink: usize) -> u8
    ensures { result ≡ cond (is_dot member line sink) (field_of which image.now line sink) 0 }
{
    let Some(Place { address, shift }) = map::place_of(which, member, line, sink) else {
        return 0;
    };
    (byte_at(image, address) >> shift) & mask_of(which)
}

// The low bits of a value in a field of a dot, where the member has the dot.
pub fn put_field(which: Field, member: usize, image: &mut [u8], line: usize, sink: usize, value: u8)
    ensures { image.new ≡ cond (is_dot member line sink) (put_field which image.old line sink (value % 2 ^ width_of which)) image.old }
{
    let Some(Place { address, shift }) = map::place_of(which, member, line, sink) else {
        return;
    };
    let byte = byte_at(image, address);
    put_byte(image, address, put_bits(which, byte, shift, value));
}
