// The lines of a script of calls: words, numbers and byte strings, and a line as a command. docs/REPLAY.md has the lines.
//
// A line is bytes without its LF. It is judged as a whole before anything is called: a line that is no call is the command Bad. The byte
// strings of a line stay in it; `word` finds them and `decode` puts their bytes into a buffer.
#![tactic(auto)]

mod bytes;
mod command;
mod lines;
mod numbers;
mod words;

pub use bytes::decode;
pub use command::{Aside, Command, Entry, Lent, Line, Part};
pub use lines::{LONGEST, is_silent, read, trimmed};
pub use words::{line_length, word};
