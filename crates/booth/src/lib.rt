// Four panels, places 0 to 3, each with a session of its own: its record, its chip and its ledger. One of them is the current one, which a
// line of a script is about unless it says otherwise. docs/REPLAY.md has the lines.
//
// `start` is the four before the first line. A number above 3 names the last place. `round` makes a round of all four.
#![tactic(auto)]

mod rounding;

ghost use Rattle.std.specs.Prelude.{◌≡◌};
ghost use Rattle.booth.specs.Booth.{fresh_booth, current_of, with_current, selected};

use map::Numbers;
pub use rounding::round;
use session::Session;

// The sessions of the four places, and the place of the current one.
#[derive(Clone, Copy)]
pub struct Booth {
    pub sessions: [Session; 4],
    pub current: usize,
}

// The numbers of a round's answer, and the panels after it.
#[derive(Clone, Copy)]
pub struct BoothRounded {
    pub numbers: Numbers,
    pub booth: Booth,
}

// Before the first line.
#[tactic(auto, unfolding(crate::specs::Booth::fresh_booth))]
pub fn start() -> Booth
    ensures { result ≡ fresh_booth }
{
    let session = session::start();
    Booth {
        sessions: [session; 4],
        current: 0,
    }
}

// The session of the current panel.
#[tactic(auto, unfolding(crate::specs::Booth::current_of))]
pub fn current_session(booth: Booth) -> Session
    ensures { result ≡ current_of booth }
{
    let Booth { sessions, current } = booth;
    sessions[current.min(3)]
}

// Another session of the current panel.
pub fn with_current(mut booth: Booth, session: Session) -> Booth
    ensures { result ≡ with_current booth session }
{
    booth.sessions[booth.current.min(3)] = session;
    booth
}

// Another panel is the current one.
pub fn select(mut booth: Booth, place: usize) -> Booth
    ensures { result ≡ selected booth place }
{
    booth.current = place;
    booth
}
