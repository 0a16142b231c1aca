// A session of a script: the record and the chip that it plays on, with the ledger of the accepted settings, and what a line of the
// script does to them and replies. docs/REPLAY.md has the lines.
//
// `start` is the session before the first line. `run` runs the command of a line, on a buffer where the call asks for one. A line that
// makes no call is not run here (the crate player has them).
#![tactic(auto)]

mod behind;
mod calling;
mod checking;
mod lines;
mod marking;
mod opening;
mod outcomes;
mod pending;
mod showing;

ghost use Rattle.std.specs.Prelude.{◌≡◌};
ghost use Rattle.session.specs.Run.{opened_session};

pub use calling::decode;
use history::{Ledger, World};
pub use lines::run;
pub use outcomes::Outcome;

// The longest buffer that is lent. It holds the byte string of any line too.
pub const ROOM: usize = 8192;

// The record and the chip that the script plays on, and the ledger of the accepted settings: None once a byte was put behind the calls'
// back.
#[derive(Clone, Copy)]
pub struct Session {
    pub world: World,
    pub ledger: Option<Ledger>,
}

// Before the first accepted `open`.
pub fn start() -> Session
    ensures { result ≡ opened_session 0 0 0 }
{
    opening::opened(0, 0, 0)
}
