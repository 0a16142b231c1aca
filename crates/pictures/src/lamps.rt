// The panel as the chip has it: ` ` where the member has no dot, `.` off or dark, `1` to `9` and `#` by level, `x` switched off with a
// level.
ghost use Rattle.std.specs.Prelude.{◌≡◌, ◌<◌};
ghost use Rattle.text.specs.Text.{Puts};
ghost use Rattle.pictures.specs.Pictures.{is_on, tenths_char, dot_char, lamp_char, lamps_text};

use crate::byte_or;
use crate::grid::put_picture;
use map::Field;

// Whether the chip is on: bit 0 of 000h.
#[tactic(auto, unfolding(crate::specs::Pictures::is_on))]
fn is_on(image: &[u8]) -> bool
    ensures { result ≡ is_on image.now }
{
    byte_or(image, 0x000, 0) % 2 == 1
}

// Tenths of the largest level, rounded up.
#[tactic(auto, unfolding(crate::specs::Pictures::tenths_char, crate::specs::Pictures::tenths))]
fn tenths_char(top: usize, level: usize) -> u8
    requires { (0 < top) × (top < 65536) × (level < 65536) }
    ensures { result ≡ tenths_char top level }
{
    let tenths = (10 * level + top - 1) / top;
    if 9 < tenths {
        b'#'
    } else {
        b'0' + tenths as u8
    }
}

// A dot that is there, by its level and its switch bit.
#[tactic(auto, unfolding(crate::specs::Pictures::dot_char))]
fn dot_char(on: bool, top: usize, level: usize, switch: u8) -> u8
    requires { (0 < top) × (top < 65536) × (level < 65536) }
    ensures { result ≡ dot_char on top level switch }
{
    if !on || level == 0 {
        b'.'
    } else if switch == 0 {
        b'x'
    } else {
        tenths_char(top, level)
    }
}

fn lamp_char(member: usize, image: &[u8], line: usize, sink: usize) -> u8
    ensures { result ≡ lamp_char member image.now line sink }
{
    if !map::is_dot(member, line, sink) {
        return b' ';
    }
    let level = dots::level(image, (18 * line + sink) as u8);
    let switch = dots::field(Field::Switch, member, image, line, sink);
    dot_char(is_on(image), dots::top_level(image), level, switch)
}

pub fn put_lamps(text: &mut [u8], at: usize, member: usize, image: &[u8]) -> usize
    ensures { Puts text.old at (lamps_text member image.now) text.new result }
{
    put_picture(
        text,
        at,
        member,
        |line, sink| lamp_char(member, image, line, sink),
    )
}
