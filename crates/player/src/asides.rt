// Asides: lines that make no call.
ghost use Rattle.std.specs.Prelude.{◌≡◌, ◌≤◌, length, take};
ghost use Rattle.text.specs.Text.{Puts};
ghost use Rattle.script.specs.LineLaws.{AsideFits};
ghost use Rattle.script.specs.Words.{word_at};
ghost use Rattle.script.specs.Bytes.{bytes_of};
ghost use Rattle.player.specs.Play.{echo_text, lamps_of, fault_map_text, differences_of, last_list_text, aside_line, after_aside};

use crate::{LIST, Played, Player, Written};
use history::World;
use host::Record;
use script::{Aside, Part};
use session::Session;

// How many bytes of a line are echoed: all, up to the longest line that is a call.
fn echoed(line: &[u8]) -> usize
    ensures { (result ≤ length line.now) × (take result line.now ≡ take 8192 line.now) }
{
    script::LONGEST.min(line.len())
}

// Where lines are echoed, the number of a line and its bytes; nothing of a comment or an empty line.
#[tactic(auto, unfolding(crate::specs::Play::echo_text, text::specs::Text::placed, text::specs::Text::place_after))]
pub(crate) fn put_echo(echo: bool, number: usize, line: &[u8], text: &mut [u8], at: usize) -> usize
    ensures { Puts text.old at (echo_text echo number line.now) text.new result }
{
    if !echo || script::is_silent(line) {
        return at;
    }
    replies::put_echo(text, at, number, &line[..echoed(line)])
}

// `lamps W`
#[tactic(auto, unfolding(crate::specs::Play::lamps_of))]
fn put_lamps(world: World, part: Part, text: &mut [u8], at: usize) -> usize
    ensures { Puts text.old at (lamps_of world part) text.new result }
{
    let World { host, chip } = world;
    let member = host.header.member as usize;
    match part {
        Part::Settings => pictures::put_lamps(text, at, member, &host.settings),
        Part::Image => pictures::put_lamps(text, at, member, &host.image),
        Part::Chip => pictures::put_lamps(text, at, chip.member as usize, &chip.registers),
    }
}

// `faultmap BYTES`
fn put_fault_map(host: Record, line: &[u8], word: usize, text: &mut [u8], at: usize) -> usize
    requires { length line.now ≤ 8192 }
    ensures { Puts text.old at (fault_map_text host (bytes_of (word_at line.now word))) text.new result }
{
    let mut given = io::buffer();
    let n = session::decode(line, word, &mut given);
    let mut readings = [0u8; 198];
    match faults::faults(host, &given[..n], &mut readings) {
        Ok(_) => pictures::put_faults(text, at, host.header.member as usize, &readings),
        Err(refusal) => text::put_decimal(text, at, map::refusal_number(refusal) as usize),
    }
}

// `diff`
#[tactic(auto, unfolding(crate::specs::Play::differences_of, crate::specs::Play::differences_by))]
fn put_differences(session: Session, text: &mut [u8], at: usize) -> usize
    ensures { Puts text.old at (differences_of session) text.new result }
{
    match session.ledger {
        Some(ledger) => pictures::put_differences(
            text,
            at,
            ledger.member as usize,
            &session.world.chip.registers,
            &ledger.bytes,
        ),
        None => text::put(text, at, b'?'),
    }
}

// `list`
fn put_list(last: &Option<Written>, text: &mut [u8], at: usize) -> usize
    ensures { Puts text.old at (last_list_text last.now) text.new result }
{
    match last {
        Some(list) => listing::put_list(text, at, list.bus, &list.bytes[..list.length.min(LIST)]),
        None => text::put(text, at, b'?'),
    }
}

// What an aside prints.
fn put(player: &Player, aside: Aside, line: &[u8], text: &mut [u8], at: usize) -> usize
    requires { AsideFits line.now aside }
    ensures { Puts text.old at (aside_line player.now aside line.now) text.new result }
{
    let session = booth::current_session(player.booth);
    let next = match aside {
        Aside::Silent => return at,
        Aside::Echo(_) => text::put(text, at, b'0'),
        Aside::Lamps(part) => put_lamps(session.world, part, text, at),
        Aside::FaultMap(word) => put_fault_map(session.world.host, line, word, text, at),
        Aside::Diff => put_differences(session, text, at),
        Aside::List => put_list(&player.last, text, at),
    };
    text::put(text, next, b'\n')
}

// The player after an aside: `echo` is kept.
#[tactic(auto, unfolding(crate::specs::Play::after_aside, crate::specs::Play::with_echo))]
fn after(mut player: Player, aside: Aside) -> Player
    ensures { result ≡ after_aside player aside }
{
    if let Aside::Echo(on) = aside {
        player.echo = on;
    }
    player
}

// The aside is the line's.
pub(crate) fn play(player: Player, aside: Aside, line: &[u8], text: &mut [u8], at: usize) -> Played
    requires { AsideFits line.now aside }
    ensures player_value { result.player ≡ after_aside player aside }
    ensures puts { Puts text.old at (aside_line player aside line.now) text.new result.at }
{
    Played {
        player: after(player, aside),
        at: put(&player, aside, line, text, at),
    }
}
