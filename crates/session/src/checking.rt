// `check`: the chip against the ledger.
ghost use Rattle.std.specs.Prelude.{◌≡◌, List, ℕ};
ghost use Rattle.session.specs.Run.{Does, alone, chip_differs, compare_from, compared};

use crate::Session;
use crate::outcomes::{Outcome, alone};
use replies::Reply;

// Whether a register holds another byte than the ledger asks for: one that no setting can write is not compared.
#[tactic(auto, unfolding(crate::specs::Run::chip_differs))]
fn chip_differs(member: usize, address: usize, held: u8, asked: u8) -> bool
    ensures { result ≡ chip_differs member address held asked }
{
    held != asked && map::writable(member, address)
}

// The lowest address at which chip and ledger differ.
fn difference(member: usize, registers: &[u8; 908], ledger: &[u8; 908]) -> Reply
    ensures { result ≡ compare_from member registers.now ledger.now 0 908 }
{
    let mut pairs = registers.iter().zip(ledger).enumerate();
    let found = pairs.find(|(a, (held, asked))| chip_differs(member, *a, **held, **asked));
    match found {
        Some((address, _)) => Reply::Differs(address),
        None => Reply::Same,
    }
}

#[tactic(auto, unfolding(crate::specs::Run::compared))]
fn compared(session: Session) -> Reply
    ensures { result ≡ compared session }
{
    match session.ledger {
        Some(ledger) => difference(
            ledger.member as usize,
            &session.world.chip.registers,
            &ledger.bytes,
        ),
        None => Reply::Bad,
    }
}

#[tactic(auto, using(crate::specs::CheckLaws::compared_plain))]
pub(crate) fn check(session: Session) -> Outcome
    ensures { (buffer : List ℕ) → Does result buffer (alone (compared session) session) }
{
    alone(compared(session), session)
}
