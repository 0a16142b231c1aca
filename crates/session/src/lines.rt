// A line of a script: its command, run on the session.
ghost use Rattle.std.specs.Prelude.{◌≡◌, length};
ghost use Rattle.script.specs.declared.command.Line.TheVariants.{Run};
ghost use Rattle.script.specs.Lines.{line_of};
ghost use Rattle.session.specs.Run.{Does, effect_of};

use crate::outcomes::{Outcome, alone};
use crate::{Session, behind, calling, checking, marking, opening, pending, showing};
use replies::Reply;
use script::Command;

// The command is the line's. (Each arm has arguments of its own: a table of closures is no plainer.)
#[tactic(auto, unfolding(crate::specs::Run::Plain, crate::specs::Run::effect_of))]
pub fn run(session: Session, command: Command, line: &[u8], buffer: &mut [u8]) -> Outcome
    requires { (Run command ≡ line_of line.now) × (length buffer.old ≡ 8192) }
    ensures { Does result buffer.new (effect_of session command line.now buffer.old) }
{
    match command {
        Command::Bad => alone(Reply::Bad, session),
        Command::Open(member, bus, pins) => opening::open(session, member, bus, pins),
        Command::Call(request, lent) => calling::call(session, request, lent, line, buffer),
        Command::Clear(room) => calling::clear(session, room, buffer),
        Command::Feed(word) => calling::feed(session, line, word, buffer),
        Command::Faults(word, room) => calling::faults(session, line, word, room, buffer),
        Command::Show(part) => showing::show(session, part, buffer),
        Command::Poke(part, address, value) => behind::poke(session, part, address, value),
        Command::Header(entry, value) => behind::header(session, entry, value),
        Command::Check => checking::check(session),
        Command::Pending => pending::pending(session),
        Command::Marks => marking::marks(session),
    }
}
