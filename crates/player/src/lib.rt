// A script, played line by line: what each line does to the player and prints. docs/REPLAY.md has the lines.
//
// `start` is the player before the first line. `play` plays a line and puts what it prints at a place of a text. A line is a command, which
// the current panel's session runs on a buffer of its own and replies to, or an aside: a comment, `echo`, a picture of the lamps or of fault
// readings, the registers that differ, or the last list; or it is about the four panels. An aside changes no record and no chip.
#![tactic(auto)]

mod asides;
mod panels;
mod running;

ghost use Rattle.std.specs.Prelude.{◌≡◌, ◌≤◌, length};
ghost use Rattle.text.specs.Text.{Puts};
ghost use Rattle.player.specs.Play.{fresh, counted_from, counted, line_text, after_line, player_after, printed, longest_text, longest_line};

use booth::Booth;
use script::Line;

// No line prints more bytes, its LFs counted.
pub const LONGEST_LINE: usize = 24603;

// The most bytes that a list takes: that of a round.
pub(crate) const LIST: usize = 4684;

// A list that a call wrote: its bytes, how many they are, and the bus of the record that wrote it.
#[derive(Clone, Copy)]
pub struct Written {
    pub bytes: [u8; LIST],
    pub length: usize,
    pub bus: usize,
}

// The four panels, whether lines are echoed, the number of the last line, and the last list that a call wrote.
#[derive(Clone, Copy)]
pub struct Player {
    pub booth: Booth,
    pub echo: bool,
    pub lines: usize,
    pub last: Option<Written>,
}

// The player after a line, and the place of the text behind what the line prints.
#[derive(Clone, Copy)]
pub struct Played {
    pub player: Player,
    pub at: usize,
}

// Before the first line.
#[tactic(auto, unfolding(crate::specs::Play::fresh))]
pub fn start() -> Player
    ensures { result ≡ fresh }
{
    Player {
        booth: booth::start(),
        echo: false,
        lines: 0,
        last: None,
    }
}

// The number of the next line.
#[tactic(auto, unfolding(crate::specs::Play::counted_from))]
fn next_number(lines: usize) -> usize
    ensures { result ≡ counted_from lines }
{
    if lines < 4294967295 {
        lines + 1
    } else {
        4294967295
    }
}

#[tactic(auto, unfolding(crate::specs::Play::counted))]
fn counting(mut player: Player) -> Player
    ensures { result ≡ counted player }
{
    player.lines = next_number(player.lines);
    player
}

// A line that was counted, without its CR.
fn play_line(player: Player, line: &[u8], text: &mut [u8], at: usize) -> Played
    ensures player_value { result.player ≡ after_line player line.now }
    ensures puts { Puts text.old at (line_text player line.now) text.new result.at }
    ensures line_fits { length (line_text player line.now) ≤ longest_text }
{
    match script::read(line) {
        Line::Run(command) => running::run(player, command, line, text, at),
        Line::Aside(aside) => asides::play(player, aside, line, text, at),
        Line::Panel(place) => panels::panel(player, place, text, at),
        Line::Round(marks, limit, room) => panels::round(player, marks, limit, room, text, at),
    }
}

// A line of any bytes and any length, without its LF. With room for the longest line behind its place the text has all that it prints.
pub fn play(player: Player, line: &[u8], text: &mut [u8], at: usize) -> Played
    ensures player_value { result.player ≡ player_after player line.now }
    ensures puts { Puts text.old at (printed player line.now) text.new result.at }
    ensures line_fits { length (printed player line.now) ≤ longest_line }
{
    let line = script::trimmed(line);
    let player = counting(player);
    let next = asides::put_echo(player.echo, player.lines, line, text, at);
    play_line(player, line, text, next)
}
