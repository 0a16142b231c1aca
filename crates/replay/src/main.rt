// Plays a script of calls on a host record and a chip model: it reads the script from standard input, one call a line, and writes
// what each line prints. docs/REPLAY.md has the lines.
//
// The script has any length. It is read in blocks; the line that is not over yet is carried from block to block in a buffer of
// its own, and what is to be written waits in a third until the block is played or the longest line has no room behind it.
#![tactic(auto)]

mod output;

ghost use Rattle.std.specs.Prelude.{◌≡◌, false, cond, ◌++◌, ◌+◌, ◌≤◌, length, take, ltb, ℕ, IsErr, IsOk, IfOk, Ok};
ghost use Rattle.player.specs.Play.{player_after, printed, longest_line};

use output::Failed;
use player::Player;
use std::io::Read;

// Two bytes more than the longest line that is a call has: its CR, and one more. A longer line is cut to this, which is no call either.
const LINE: usize = script::LONGEST + 2;

const BLOCK: usize = 65536;

const TEXT: usize = 65536;

// What is kept from line to line: the player, the length of the line so far, and how much text waits.
#[derive(Clone, Copy)]
struct Reading {
    player: Player,
    length: usize,
    at: usize,
}

fn new_reading() -> Reading
    ensures { (result.length ≡ 0) × (result.at ≡ 0) }
{
    Reading {
        player: player::start(),
        length: 0,
        at: 0,
    }
}

// A line that is over: with room for the longest line, all that it prints stands behind the text that waits. The next line is empty
// so far.
fn play(reading: &mut Reading, line: &[u8], text: &mut [u8])
    requires { reading.old.at + longest_line ≤ length text.old }
    ensures player_value { reading.new.player ≡ player_after reading.old.player line.now }
    ensures text_after { take reading.new.at text.new ≡ take reading.old.at text.old ++ printed reading.old.player line.now }
    ensures at_in_bounds { reading.new.at ≤ length text.new }
    ensures length_value { reading.new.length ≡ 0 }
{
    let played = player::play(reading.player, line, text, reading.at);
    reading.player = played.player;
    reading.length = 0;
    reading.at = played.at;
}

// The line, where it is over, is played whole. Behind it there is room for another.
fn line_ended(
    out: &impl Print,
    err: &impl Print,
    reading: &mut Reading,
    over: bool,
    line: &[u8],
    text: &mut [u8],
) -> Result<(), Failed>
    requires { (reading.old.length ≤ length line.now) × (reading.old.at + longest_line ≤ length text.old) }
    ensures player_value { reading.new.player ≡ cond over (player_after reading.old.player (take reading.old.length line.now)) reading.old.player }
    ensures length_in_bounds { (reading.new.length ≤ length line.now) × (reading.new.at + longest_line ≤ length text.new) }
{
    if !over {
        return Ok(());
    }
    let length = reading.length;
    play(reading, &line[..length], text);
    output::with_room(out, err, text, &mut reading.at)
}

// The line so far with these bytes behind it, as many as its buffer has room for. It answers the length.
fn lengthened(line: &mut [u8], at: usize, bytes: &[u8]) -> usize
    requires { at ≤ length line.old }
    ensures line_after { take result line.new ≡ take (length line.old) (take at line.old ++ bytes.now) }
    ensures within { result ≤ length line.new }
{
    text::put_text(line, at, bytes)
}

// Where the line that starts here ends: at its LF, or with the block.
fn line_end(block: &[u8], from: usize) -> usize
    requires { from ≤ length block.now }
    ensures { (from ≤ result) × (result ≤ length block.now) }
{
    from + script::line_length(&block[from..])
}

// The lines of a block. Each turn goes on behind the line that it played, so that no range counts them.
fn play_block(
    out: &impl Print,
    err: &impl Print,
    reading: &mut Reading,
    block: &[u8],
    line: &mut [u8],
    text: &mut [u8],
) -> Result<(), Failed>
    requires { (length block.now ≤ 65536) × (reading.old.length ≤ length line.old) × (reading.old.at + longest_line ≤ length text.old) }
    ensures { (reading.new.length ≤ length line.new) × (reading.new.at + longest_line ≤ length text.new) }
{
    let mut from = 0;
    while from < block.len() {
        let to = line_end(block, from);
        reading.length = lengthened(line, reading.length, &block[from..to]);
        line_ended(out, err, reading, to < block.len(), line, text)?;
        from = to + 1;
    }
    Ok(())
}

// Whether there may be more to read, after a block's text was written and so much was read; an error where one of them failed.
fn more(written: Result<(), Failed>, got: Result<usize, Failed>) -> Result<bool, Failed>
    ensures not_written { IsErr written → IsErr result }
    ensures not_read { IsErr got → IsErr result }
    ensures both { (n : ℕ) → IsOk written → got ≡ Ok n → result ≡ Ok (ltb 0 n) }
    ensures over { got ≡ Ok 0 → IfOk result (λ more. more ≡ false) }
{
    written?;
    Ok(0 < got?)
}

// After a block, of which so much was read, the text is written. It answers whether there may be more to read.
fn block_ended(
    out: &impl Print,
    err: &impl Print,
    reading: &mut Reading,
    got: Result<usize, Failed>,
    text: &[u8],
) -> Result<bool, Failed>
    requires { reading.old.at ≤ length text.now }
    ensures length_value { reading.new.length ≡ reading.old.length }
    ensures at_value { reading.new.at ≡ 0 }
    ensures failed { IsErr got → IsErr result }
    ensures over { got ≡ Ok 0 → IfOk result (λ more. more ≡ false) }
{
    more(output::flushed(out, err, text, &mut reading.at), got)
}

fn play_some(
    input: &mut impl Read,
    out: &impl Print,
    err: &impl Print,
    reading: &mut Reading,
    line: &mut [u8],
    text: &mut [u8],
) -> Result<bool, Failed>
    requires { (reading.old.length ≤ length line.old) × (reading.old.at + longest_line ≤ length text.old) }
    ensures { (reading.new.length ≤ length line.new) × (reading.new.at + longest_line ≤ length text.new) }
{
    let mut block = [0u8; BLOCK];
    let got = output::read_some(input, err, &mut block);
    play_block(out, err, reading, &block[..got.unwrap_or(0)], line, text)?;
    block_ended(out, err, reading, got, text)
}

// A proved loop has to end, and nothing says that the input does. So the loop counts its turns, up to a number that no run uses up.
fn play_all(
    input: &mut impl Read,
    out: &impl Print,
    err: &impl Print,
    line: &mut [u8],
    text: &mut [u8],
) -> Result<Reading, Failed>
    requires { longest_line ≤ length text.old }
    ensures { IfOk result (λ reading. (reading.length ≤ length line.new) × (reading.at + longest_line ≤ length text.new)) }
{
    let mut reading = new_reading();
    for _ in 0..u64::MAX {
        if !play_some(input, out, err, &mut reading, line, text)? {
            break;
        }
    }
    Ok(reading)
}

fn play_input(input: &mut impl Read, out: &impl Print, err: &impl Print) -> Result<(), Failed> {
    let mut line = [0u8; LINE];
    let mut text = [0u8; TEXT];
    let mut reading = play_all(input, out, err, &mut line, &mut text)?;
    // the last line may lack its LF
    if 0 < reading.length {
        line_ended(out, err, &mut reading, true, &line, &mut text)?;
        output::flushed(out, err, &text, &mut reading.at)?;
    }
    Ok(())
}

fn main(rt: HostRuntime) {
    let err = rt.stderr();
    if 1 < console::arg_count(&rt) {
        output::usage(&err);
        return;
    }
    // a line has said what failed
    let _ = play_input(&mut rt.stdin(), &rt, &err);
}
