// What the programs share: what they print, how many words they were started with, and a line that says what failed and why.
//
// A write that fails is not noticed here.
#![tactic(auto)]

use std::env::{Env, FillError};
use std::io;
use std::io::Write;

pub fn say(to: &impl Print, text: &[u8]) {
    let _ = to.write_all(text);
}

// A number in decimal.
pub fn say_decimal(to: &impl Print, value: u64) {
    let _ = to.print(value);
}

// How many words the program was started with, its own name among them.
pub fn arg_count(rt: &impl Env) -> usize {
    let mut word = [0u8; 1];
    for count in 0..usize::MAX {
        if let Err(FillError::NotPresent) = rt.arg(count, &mut word) {
            return count;
        }
    }
    usize::MAX
}

// The system's words for an error, behind which its number stands in parentheses.
fn without_number(text: &str) -> &str {
    text.split_once(" (os error ")
        .map_or(text, |(words, _)| words)
}

// A line: what failed, as the caller names it, a colon and the system's words for the error.
pub fn fail(to: &impl Print, what: &[u8], error: &io::Error) {
    let mut text = [0u8; 256];
    let mut room = &mut text[..];
    let _ = write!(room, "{error}");
    let length = 256usize.saturating_sub(room.len());
    say(to, what);
    say(to, b": ");
    if let Ok(words) = std::str::from_utf8(&text[..length]) {
        say(to, without_number(words).as_bytes());
    }
    say(to, b"\n");
}
