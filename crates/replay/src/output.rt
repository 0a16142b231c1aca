// The text that waits to be written, and the calls of the system. What fails ends the program, and a line on standard error says so.
ghost use Rattle.std.specs.Prelude.{◌≡◌, ◌<◌, ◌≤◌, length, IfOk};
ghost use Rattle.replay.specs.Output.{waiting};

use std::io::{Error, ErrorKind, Read};
use std::thread;

// A call of the system has failed, and a line says so.
#[derive(Clone, Copy)]
pub(crate) struct Failed;

// Whether a call that failed so can be made again: a signal came before it moved a byte, or a pipe that does not block was full or
// empty. No function of the libraries waits for a pipe, so another process is let run first.
fn again(error: &Error) -> bool {
    match error.kind() {
        ErrorKind::Interrupted => true,
        ErrorKind::WouldBlock => {
            thread::yield_now();
            true
        }
        _ => false,
    }
}

// A write has failed, or took no byte.
fn failing(err: &impl Print, error: &Error) -> Failed {
    console::fail(err, b"replay: cannot write standard output", error);
    Failed
}

// How many of the bytes a write took. A proved loop has to end: this one counts its turns, up to a number that no run uses up.
fn write_some(out: &impl Print, err: &impl Print, bytes: &[u8]) -> Result<usize, Failed>
    ensures { IfOk result (λ took. (0 < took) × (took ≤ length bytes.now)) }
{
    for _ in 0..u64::MAX {
        match out.write_some(bytes) {
            Ok(0) => return Err(failing(err, &Error::from(ErrorKind::WriteZero))),
            Ok(took) => return Ok(took),
            Err(error) => {
                if !again(&error) {
                    return Err(failing(err, &error));
                }
            }
        }
    }
    Err(Failed)
}

// All the bytes are written. A write may take only some of them: the next one goes on behind.
fn written(out: &impl Print, err: &impl Print, bytes: &[u8]) -> Result<(), Failed> {
    let mut rest = bytes;
    while !rest.is_empty() {
        let took = write_some(out, err, rest)?;
        rest = &rest[took..];
    }
    Ok(())
}

// The text before this place is written, and none waits, nor where a write has failed.
pub(crate) fn flushed(
    out: &impl Print,
    err: &impl Print,
    text: &[u8],
    at: &mut usize,
) -> Result<(), Failed>
    requires { at.old ≤ length text.now }
    ensures { at.new ≡ 0 }
{
    let end = *at;
    *at = 0;
    written(out, err, &text[..end])
}

// The text is written where the longest line has no room behind it.
#[tactic(auto, unfolding(crate::specs::Output::waiting))]
pub(crate) fn with_room(
    out: &impl Print,
    err: &impl Print,
    text: &[u8],
    at: &mut usize,
) -> Result<(), Failed>
    requires { at.old ≤ length text.now }
    ensures { at.new ≡ waiting (length text.now) at.old }
{
    if player::LONGEST_LINE <= text.len() - *at {
        return Ok(());
    }
    flushed(out, err, text, at)
}

// A block of the script: how many bytes, 0 at its end.
pub(crate) fn read_some(
    input: &mut impl Read,
    err: &impl Print,
    block: &mut [u8],
) -> Result<usize, Failed>
    ensures { IfOk result (λ n. n ≤ length block.new) }
{
    for _ in 0..u64::MAX {
        match input.read(block) {
            Ok(got) => return Ok(got),
            Err(error) => {
                if !again(&error) {
                    console::fail(err, b"replay: cannot read standard input", &error);
                    return Err(Failed);
                }
            }
        }
    }
    Err(Failed)
}

pub(crate) fn usage(err: &impl Print) {
    console::say(
        err,
        b"replay: takes no arguments, reads a script from standard input\n",
    );
}
