// The ledger as a value: a setting is put to a record that has the ledger's bytes for its settings, on bus 0 with pins 0 and not locked, and
// what the record then has is the ledger. So the ledger takes a setting by its own bytes alone.
ghost use Rattle.std.specs.Prelude.{◌≡◌, cond, ltb};
ghost use Rattle.calls.specs.declared.Request.TheVariants.{Set};
ghost use Rattle.history.specs.Ledger.{entry_of, opened_ledger};

use crate::Ledger;
use calls::{Request, Setting};
use host::{Header, Record};

// The number of a member that can be opened, else 0. (A conversion that is filtered is no plainer.)
#[tactic(auto, using(std::proofs::lemmas::Bool::Decides::nat_tests))]
fn known(member: usize) -> u8
    ensures { result ≡ cond (ltb member 5) member 0 }
{
    if member < 5 { member as u8 } else { 0 }
}

#[tactic(auto, unfolding(crate::specs::Ledger::opened_ledger))]
pub(crate) fn opened(member: usize) -> Ledger
    ensures { result ≡ opened_ledger member }
{
    let known = known(member);
    Ledger {
        member: known,
        bytes: images::reset_image(known as usize),
    }
}

// The ledger after a setting. (The borrow checker wants an array in a variable of its own before it is put into a literal.)
#[tactic(auto, using(crate::proofs::Calls::set_enters))]
fn set(ledger: Ledger, setting: Setting, lent: &[u8]) -> Ledger
    ensures { result ≡ entry_of ledger (Set setting) lent.now }
{
    let bytes = ledger.bytes;
    let header = Header {
        member: ledger.member,
        bus: 0,
        pins: 0,
        marks: host::FREE,
    };
    let asked = Record {
        header,
        settings: bytes,
        image: bytes,
    };
    let settings = host::set(asked, setting, lent).host.settings;
    Ledger {
        bytes: settings,
        ..ledger
    }
}

// The ledger after one more call.
pub(crate) fn entered(ledger: Ledger, request: Request, lent: &[u8]) -> Ledger
    ensures { result ≡ entry_of ledger request lent.now }
{
    match request {
        Request::Set(setting) => set(ledger, setting, lent),
        Request::Reset | Request::PowerLost | Request::Update | Request::Lock => ledger,
    }
}
