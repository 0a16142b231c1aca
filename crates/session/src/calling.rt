// The calls of a script, on the bytes that its line lends: on the record, whose lists are fed to the chip at once, on the chip alone, and
// Faults.
ghost use Rattle.std.specs.Prelude.{◌≡◌, List, ℕ, ◌≤◌, length, take};
ghost use Rattle.history.specs.Step.{leaving, clear_step};
ghost use Rattle.script.specs.Words.{word_at};
ghost use Rattle.script.specs.Bytes.{bytes_of};
ghost use Rattle.script.specs.LineLaws.{LentFits};
ghost use Rattle.session.specs.Run.{Does, lent_of, step_effect, call_effect, feed_effect, faults_effect};

use crate::Session;
use crate::outcomes::{Outcome, answered, numbered};
use calls::Request;
use history::Stepped;
use script::Lent;

// The bytes of a word of the line, at the front of a buffer. It answers how many.
#[tactic(auto, using(crate::proofs::Buffers::decoded))]
pub fn decode(line: &[u8], word: usize, buffer: &mut [u8]) -> usize
    requires { (length line.now ≤ 8192) × (4096 ≤ length buffer.old) }
    ensures { (result ≤ 4096) × (take result buffer.new ≡ bytes_of (word_at line.now word)) }
{
    script::decode(script::word(line, word), buffer)
}

// What is lent to a call, at the front of the buffer. It answers how many bytes, as `decode` does: a lent part of the buffer is no plainer.
#[tactic(auto, unfolding(crate::specs::Run::lent_of, script::specs::LineLaws::LentFits))]
fn lend(line: &[u8], lent: Lent, buffer: &mut [u8]) -> usize
    requires { LentFits line.now lent × (length buffer.old ≡ 8192) }
    ensures { (result ≤ 8192) × (take result buffer.new ≡ lent_of lent line.now buffer.old) }
{
    match lent {
        Lent::Nothing => 0,
        Lent::Word(word) => decode(line, word, buffer),
        Lent::Room(room) => room,
    }
}

// What a call answered, and the session after it; `room` is how many bytes it was lent.
#[tactic(auto, unfolding(crate::specs::Run::with_world, crate::specs::Run::step_effect))]
fn stepped(session: Session, stepped: Stepped, lent: Lent, room: usize) -> Outcome
    ensures { (buffer : List ℕ) → room ≤ length buffer → Does result buffer (step_effect session lent (leaving stepped (take room buffer))) }
{
    let after = Session {
        world: stepped.world,
        ..session
    };
    answered(lent, history::call_numbers(stepped.answer), room, after)
}

// A call on the bytes that are lent; the ledger is told of it, and whether it was answered 17. A setting leaves the bytes as they were lent,
// and of the other calls the ledger takes none.
fn call_on(mut session: Session, request: Request, lent: Lent, bytes: &mut [u8]) -> Outcome
    ensures { Does result bytes.new (call_effect session request lent bytes.old) }
{
    let after = history::step(session.world, request, bytes);
    let locked = history::answers_locked(after.answer);
    session.ledger = session
        .ledger
        .map(|ledger| history::enter(ledger, request, bytes, locked));
    stepped(session, after, lent, bytes.len())
}

#[tactic(auto, using(crate::proofs::Effects::does_front))]
pub(crate) fn call(
    session: Session,
    request: Request,
    lent: Lent,
    line: &[u8],
    buffer: &mut [u8],
) -> Outcome
    requires { LentFits line.now lent × (length buffer.old ≡ 8192) }
    ensures { Does result buffer.new (call_effect session request lent (lent_of lent line.now buffer.old)) }
{
    let n = lend(line, lent, buffer);
    call_on(session, request, lent, &mut buffer[..n])
}

pub(crate) fn clear(session: Session, room: usize, buffer: &mut [u8]) -> Outcome
    requires { (room ≤ 8192) × (length buffer.old ≡ 8192) }
    ensures { Does result buffer.new (step_effect session (Lent.Room room) (clear_step session.world (take room buffer.old))) }
{
    let after = history::clear(session.world, &mut buffer[..room]);
    stepped(session, after, Lent::Room(room), room)
}

#[tactic(auto, unfolding(crate::specs::Run::with_world, crate::specs::Run::feed_effect))]
pub(crate) fn feed(mut session: Session, line: &[u8], word: usize, buffer: &mut [u8]) -> Outcome
    requires { (length line.now ≤ 8192) × (length buffer.old ≡ 8192) }
    ensures { Does result buffer.new (feed_effect session (bytes_of (word_at line.now word))) }
{
    let n = decode(line, word, buffer);
    let fed = chip::feed(session.world.chip, &buffer[..n]);
    session.world.chip = fed.chip;
    numbered(fed.answer, session)
}

// The byte string goes to a buffer of its own, the result to the one that is shown.
pub(crate) fn faults(
    session: Session,
    line: &[u8],
    word: usize,
    room: usize,
    buffer: &mut [u8],
) -> Outcome
    requires { (length line.now ≤ 8192) × (room ≤ 8192) × (length buffer.old ≡ 8192) }
    ensures { Does result buffer.new (faults_effect session (bytes_of (word_at line.now word)) (take room buffer.old)) }
{
    let mut given = io::buffer();
    let n = decode(line, word, &mut given);
    let answer = faults::faults(session.world.host, &given[..n], &mut buffer[..room]);
    answered(
        Lent::Room(room),
        faults::answer_numbers(answer),
        room,
        session,
    )
}
