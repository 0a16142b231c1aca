// Whole images: the test that host and chip run in every call, and the reset values.
//
// 000h to 063h are tested by a table of reserved bits, one for each member. Behind them, with n the member's lines: the fault bytes
// stand at 064h to 0A6h, the currents of n lines from 100h on and the levels of n lines from 200h on, and every byte between and
// behind is 0. Currents and levels may be any bytes, but for the LP5867: its absent sinks are tested by tables too. No fold or loop stops early, so
// that many bytes are taken at once.
//
// The tables are constants, each named in one arm of a `match`: by the compiler's hand they are part of the code there. As statics indexed by
// the member `image_ok` takes 425 instructions and not 406, `put_reset` 143 and not 110.
#![tactic(auto)]

mod tables;

ghost use Rattle.std.specs.Prelude.{◌≡◌, cond, ℕ, ◌-◌, ◌*◌, ◌<◌, ◌≤◌, eqb, length};
ghost use Rattle.map.specs.Lists.{all_from};
ghost use Rattle.map.specs.Map.{lines_of};
ghost use Rattle.map.specs.Images.{ok_at, zero_at, image_ok, registers_ok, reset_image};
ghost use Rattle.images.specs.Ranges.{differing};

// There is no member from this code on.
const MEMBERS: usize = 5;

// The bits of a range of bytes that differ from their reset values, of those that `masks` has.
fn differing(bytes: &[u8], masks: &[u8], resets: &[u8]) -> u8
    ensures { result ≡ differing bytes.now masks.now resets.now }
{
    bytes.iter().zip(masks).zip(resets).fold(
        0,
        |bits, ((byte, mask), reset)| bits | ((byte & mask) ^ (reset & mask)),
    )
}

// Every byte from one address to another is 0. By the address: a fold of the slice takes `image_ok` 411 instructions and not 406.
fn zeros(image: &[u8], from: usize, to: usize) -> bool
    requires { (from ≤ to) × (to ≤ length image.now) }
    ensures { result ≡ all_from (zero_at image.now) from (to - from) }
{
    let mut bits = 0;
    for address in from..to {
        bits |= image[address];
    }
    bits == 0
}

// 000h to 063h.
fn low_ok(member: usize, image: &[u8; 908]) -> bool
    requires { member < 5 }
    ensures { result ≡ all_from (ok_at member image.now) 0 100 }
{
    let low = &image[..0x064];
    let bits = match member {
        0 => differing(low, &tables::LP5860_LOW, &tables::LP5860_RESETS),
        1 => differing(low, &tables::LP5861T_LOW, &tables::LP5861T_RESETS),
        2 => differing(low, &tables::LP5864_LOW, &tables::LP5864_RESETS),
        3 => differing(low, &tables::LP5867_LOW, &tables::LP5867_RESETS),
        _ => differing(low, &tables::LP5868T_LOW, &tables::LP5868T_RESETS),
    };
    bits == 0
}

// 100h on: only the LP5867 has reserved bits among the currents of its lines.
fn currents_ok(member: usize, image: &[u8; 908]) -> bool
    requires { member < 5 }
    ensures { result ≡ all_from (ok_at member image.now) 0x100 (18 * lines_of member) }
{
    member != 3 || differing(&image[0x100..0x17E], &tables::LP5867_CURRENTS, &[0x80; 126]) == 0
}

// 200h on, likewise.
fn levels_ok(member: usize, image: &[u8; 908]) -> bool
    requires { member < 5 }
    ensures { result ≡ all_from (ok_at member image.now) 0x200 (36 * lines_of member) }
{
    member != 3 || differing(&image[0x200..0x2FC], &tables::LP5867_LEVELS, &[0; 252]) == 0
}

// 0A7h to 38Bh, range by range.
fn high_ok(member: usize, image: &[u8; 908]) -> bool
    requires { member < 5 }
    ensures { result ≡ all_from (ok_at member image.now) 0x0A7 741 }
{
    let n = map::lines(member);
    zeros(image, 0x0A7, 0x100)
        && currents_ok(member, image)
        && zeros(image, 0x100 + 18 * n, 0x200)
        && levels_ok(member, image)
        && zeros(image, 0x200 + 36 * n, 908)
}

// The registers of a chip: any bytes may stand at 064h to 0A6h.
pub fn registers_ok(member: usize, image: &[u8]) -> bool
    ensures { result ≡ registers_ok member image.now }
{
    let Ok(image) = image.try_into() else {
        return false;
    };
    member < MEMBERS && low_ok(member, image) && high_ok(member, image)
}

// An image of a record.
pub fn image_ok(member: usize, image: &[u8]) -> bool
    ensures { result ≡ image_ok member image.now }
{
    registers_ok(member, image) && zeros(image, 0x064, 0x0A7)
}

// The bytes of a table into an image.
fn put(image: &mut [u8], table: [u8; 908])
    requires { length image.old ≡ 908 }
    ensures { image.new ≡ table }
{
    image.copy_from_slice(&table);
}

// The reset values of a member into an image that is lent, all 0 for a code above 4; other than 908 bytes are no image, and stay as they are.
pub fn put_reset(member: usize, image: &mut [u8])
    ensures { image.new ≡ cond (eqb (length image.old) 908) (reset_image member) image.old }
{
    if image.len() != 908 {
        return;
    }
    match member {
        0 => put(image, tables::LP5860_RESETS),
        1 => put(image, tables::LP5861T_RESETS),
        2 => put(image, tables::LP5864_RESETS),
        3 => put(image, tables::LP5867_RESETS),
        4 => put(image, tables::LP5868T_RESETS),
        _ => put(image, [0; 908]),
    }
}

// The same as an image of its own.
pub fn reset_image(member: usize) -> [u8; 908]
    ensures { result ≡ reset_image member }
{
    let mut image = [0; 908];
    put_reset(member, &mut image);
    image
}
