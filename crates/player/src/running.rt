// A command: run by the session, and replied to. The list that it wrote is kept.
ghost use Rattle.std.specs.Prelude.{◌≡◌, ◌≤◌, length};
ghost use Rattle.text.specs.Text.{Puts};
ghost use Rattle.script.specs.declared.command.Line.TheVariants.{Run};
ghost use Rattle.script.specs.Lines.{line_of};
ghost use Rattle.player.specs.Play.{is_room, writes_list, size_by, listed_size, kept_size, keeping, command_line, after_command, longest_text, fresh_buffer};

use crate::{LIST, Played, Player, Written};
use map::Numbers;
use replies::Reply;
use script::{Command, Lent};

#[tactic(auto, unfolding(crate::specs::Play::is_room))]
fn is_room(lent: Lent) -> bool
    ensures { result ≡ is_room lent }
{
    matches!(lent, Lent::Room(_))
}

// Whether a command, where it is accepted, writes a list into the buffer that it is lent.
#[tactic(auto, unfolding(crate::specs::Play::writes_list))]
fn writes_list(command: Command) -> bool
    ensures { result ≡ writes_list command }
{
    match command {
        Command::Call(_, lent) => is_room(lent),
        Command::Clear(_) => true,
        _ => false,
    }
}

// The size of the list that an answer of 0, n and t tells of.
#[tactic(auto, unfolding(crate::specs::Play::size_by))]
pub(crate) fn size_by(numbers: Numbers) -> Option<usize>
    ensures { result ≡ size_by numbers }
{
    let [number, n, t, ..] = numbers.values;
    if number == 0 && n < 65536 && t < 65536 {
        Some(4 + 2 * n + t)
    } else {
        None
    }
}

#[tactic(auto, unfolding(crate::specs::Play::listed_size))]
fn listed_size(reply: Reply) -> Option<usize>
    ensures { result ≡ listed_size reply }
{
    match reply {
        Reply::Lent(numbers) => size_by(numbers),
        _ => None,
    }
}

#[tactic(auto, unfolding(crate::specs::Play::kept_size))]
fn kept_size(command: Command, reply: Reply) -> Option<usize>
    ensures { result ≡ kept_size command reply }
{
    if writes_list(command) {
        listed_size(reply)
    } else {
        None
    }
}

// A list of so many bytes at the front of what is shown is the last one, with the bus that its heads are for.
#[tactic(auto, unfolding(crate::specs::Play::keeping))]
pub(crate) fn keep(mut player: Player, size: Option<usize>, shown: &[u8], bus: usize) -> Player
    ensures { result ≡ keeping player size shown.now bus }
{
    match size {
        Some(n) if n <= shown.len() => {
            let mut bytes = [0; LIST];
            let length = text::put_text(&mut bytes, 0, &shown[..n]);
            player.last = Some(Written { bytes, length, bus });
            player
        }
        _ => player,
    }
}

// "A buffer of L bytes .. is lent filled with A5h": the first L bytes of this.
#[tactic(auto, unfolding(crate::specs::Play::fresh_buffer))]
pub(crate) fn fresh_buffer() -> [u8; session::ROOM]
    ensures { result ≡ fresh_buffer }
{
    [0xA5; session::ROOM]
}

// The command is the line's.
pub(crate) fn run(
    mut player: Player,
    command: Command,
    line: &[u8],
    text: &mut [u8],
    at: usize,
) -> Played
    requires { Run command ≡ line_of line.now }
    ensures player_value { result.player ≡ after_command player command line.now }
    ensures puts { Puts text.old at (command_line player command line.now) text.new result.at }
    ensures line_fits { length (command_line player command line.now) ≤ longest_text }
{
    let mut buffer = fresh_buffer();
    let session = booth::current_session(player.booth);
    let outcome = session::run(session, command, line, &mut buffer);
    player.booth = booth::with_current(player.booth, outcome.session);
    let shown = &buffer[..outcome.shown];
    let bus = outcome.session.world.host.header.bus as usize;
    Played {
        at: replies::put_line(text, at, outcome.reply, shown),
        player: keep(player, kept_size(command, outcome.reply), shown, bus),
    }
}
