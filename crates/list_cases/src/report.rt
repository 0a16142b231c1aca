// What the program prints, all of it on standard output.
ghost use Rattle.std.specs.Prelude.{◌≤◌, length};

use console::{say, say_decimal};

// Bytes that have room for the text of any list.
const ROOM: usize = 196608;

fn say_line(rt: &impl Print, text: &[u8]) {
    say(rt, text);
    say(rt, b"\n");
}

// The caption, and the list's text with heads of a bus.
pub fn whole_on(rt: &impl Print, caption: &[u8], bus: usize, list: &[u8]) {
    say_line(rt, caption);
    let mut text = [0u8; ROOM];
    let end = listing::show(bus, list, &mut text);
    say(rt, &text[..end]);
}

// With I2C heads.
pub fn whole(rt: &impl Print, caption: &[u8], list: &[u8]) {
    whole_on(rt, caption, 0, list);
}

// The caption, and the list's text on one line.
pub fn one_line(rt: &impl Print, caption: &[u8], bus: usize, list: &[u8]) {
    say_line(rt, caption);
    let mut text = [0u8; ROOM];
    let end = listing::put_list(&mut text, 0, bus, list);
    say_line(rt, &text[..end]);
}

// The first line, without its line end.
fn first_line(text: &[u8]) -> &[u8]
    ensures { length result.now ≤ length text.now }
{
    text.split(|byte| *byte == b'\n').next().unwrap_or(&[])
}

fn lines(text: &[u8]) -> usize {
    text.iter().filter(|byte| **byte == b'\n').count()
}

fn say_summary(rt: &impl Print, text: &[u8]) {
    say_line(rt, first_line(text));
    say_decimal(rt, lines(text) as u64);
    say(rt, b" lines, ");
    say_decimal(rt, text.len() as u64);
    say(rt, b" bytes\n");
}

// The caption, the first line of the list's text, and how many lines and bytes that has.
pub fn summary(rt: &impl Print, caption: &[u8], list: &[u8]) {
    say_line(rt, caption);
    let mut text = [0u8; ROOM];
    let end = listing::show(0, list, &mut text);
    say_summary(rt, &text[..end]);
}
