// What a line gives back, with the buffer that it was lent.
ghost use Rattle.std.specs.Prelude.{List, ℕ, ◌≤◌, length, take};
ghost use Rattle.session.specs.Run.{Does, Plain, alone, answered, numbered};

use crate::Session;
use map::{Answer, Numbers};
use replies::Reply;
use script::Lent;

// The reply, how many bytes of the buffer it shows, and the session after the line.
#[derive(Clone, Copy)]
pub struct Outcome {
    pub reply: Reply,
    pub shown: usize,
    pub session: Session,
}

// Of a line that prints a word.
#[tactic(auto, using(crate::proofs::Effects::plain_words), unfolding(crate::specs::Run::alone))]
pub(crate) fn alone(reply: Reply, session: Session) -> Outcome
    requires { Plain reply }
    ensures { (buffer : List ℕ) → Does result buffer (alone reply session) }
{
    Outcome {
        reply,
        shown: 0,
        session,
    }
}

// The numbers of an answer, and the first `room` bytes of a buffer that was lent.
#[tactic(auto, unfolding(crate::specs::Run::Words, crate::specs::Run::alone, crate::specs::Run::answered))]
pub(crate) fn answered(lent: Lent, numbers: Numbers, room: usize, session: Session) -> Outcome
    ensures { (buffer : List ℕ) → room ≤ length buffer → Does result buffer (answered lent numbers (take room buffer) session) }
{
    match lent {
        Lent::Nothing | Lent::Word(_) => Outcome {
            reply: Reply::Numbers(numbers),
            shown: 0,
            session,
        },
        Lent::Room(_) => Outcome {
            reply: Reply::Lent(numbers),
            shown: room,
            session,
        },
    }
}

// A number alone.
#[tactic(auto, unfolding(crate::specs::Run::answered, crate::specs::Run::numbered))]
pub(crate) fn numbered(answer: Answer, session: Session) -> Outcome
    ensures { (buffer : List ℕ) → Does result buffer (numbered answer session) }
{
    answered(Lent::Nothing, map::answer_numbers(answer), 0, session)
}
