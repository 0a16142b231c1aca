// The readings of Faults: `.` sound, `o` open, `s` short, `b` both, ` ` where the member has no such dot, `-` untested, `?` for a number that
// is no reading.
ghost use Rattle.std.specs.Prelude.{◌≡◌, ◌<◌};
ghost use Rattle.text.specs.Text.{Puts};
ghost use Rattle.pictures.specs.Pictures.{reading_char, fault_char, faults_text};

use crate::byte_or;
use crate::grid::put_picture;

#[tactic(auto, unfolding(crate::specs::Pictures::reading_char))]
fn reading_char(reading: u8) -> u8
    ensures { result ≡ reading_char reading }
{
    match reading {
        0 => b'.',
        1 => b'o',
        2 => b's',
        3 => b'b',
        4 => b' ',
        5 => b'-',
        _ => b'?',
    }
}

// The reading of a dot; one behind the end counts as 4.
#[tactic(auto, unfolding(crate::specs::Pictures::fault_char))]
fn fault_char(readings: &[u8], line: usize, sink: usize) -> u8
    requires { (line < 11) × (sink < 18) }
    ensures { result ≡ fault_char readings.now line sink }
{
    reading_char(byte_or(readings, 18 * line + sink, 4))
}

pub fn put_faults(text: &mut [u8], at: usize, member: usize, readings: &[u8]) -> usize
    ensures { Puts text.old at (faults_text member readings.now) text.new result }
{
    put_picture(
        text,
        at,
        member,
        |line, sink| fault_char(readings, line, sink),
    )
}
