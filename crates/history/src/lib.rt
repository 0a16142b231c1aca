// Whole histories: one call after the other on a host's record and on its chip.
//
// A world is a host's record and the chip that it stands for. A step makes one call on the record, feeds the list that it answers to
// the chip at once, and takes the chip's power where the record is told that it was lost. The ledger is what was asked for: it is
// told the calls and, of their answers, each 17 of a locked register and no other. The crate demand has the claim about whole lists of calls:
// after an accepted update that wants the chip on, the chip holds what the ledger says, and no list does it in fewer bytes.
#![tactic(auto)]

mod feeding;
mod ledgers;

ghost use Rattle.std.specs.Prelude.{◌≡◌};
ghost use Rattle.history.specs.Step.{call_numbers, answers_locked, leaving, changed_by, step_of, clear_step};
ghost use Rattle.history.specs.Ledger.{told_of, opened_ledger, entered_of};

use calls::Request;
use chip::Chip;
use host::{Changed, Record};
use map::{Numbers, Refusal};
use update::ListAnswer;

// A host's record and its chip.
#[derive(Clone, Copy)]
pub struct World {
    pub host: Record,
    pub chip: Chip,
}

// What a call answers: a setting, Power lost or Lock a number and the values that come with it, the others a list; an update also how many bytes
// of the chip image it stored.
#[derive(Clone, Copy)]
pub enum CallAnswer {
    Setting(Numbers),
    List(ListAnswer),
    Update { list: ListAnswer, stored: usize },
}

// The answer, and the world after the call.
#[derive(Clone, Copy)]
pub struct Stepped {
    pub answer: CallAnswer,
    pub world: World,
}

// What was asked for since a member was opened: a byte for each register.
#[derive(Clone, Copy)]
pub struct Ledger {
    pub member: u8,
    pub bytes: [u8; 908],
}

// The number of an answer and its values.
pub fn call_numbers(answer: CallAnswer) -> Numbers
    ensures { result ≡ call_numbers answer }
{
    match answer {
        CallAnswer::Setting(numbers) => numbers,
        CallAnswer::List(list) => update::list_numbers(list),
        CallAnswer::Update { list, stored } => update::update_numbers(list, stored),
    }
}

// Whether an answer is that of a register that the record's lock keeps.
#[tactic(auto, unfolding(crate::specs::Step::answers_locked))]
pub fn answers_locked(answer: CallAnswer) -> bool
    ensures { result ≡ answers_locked answer }
{
    call_numbers(answer).values[0] == map::refusal_number(Refusal::Locked) as usize
}

// One call on a world. The bytes of a Scene and the buffer of a Reset or an Update are lent.
#[tactic(auto, using(crate::proofs::FedLists::reset_within, crate::proofs::FedLists::update_within))]
pub fn step(world: World, request: Request, lent: &mut [u8]) -> Stepped
    ensures { leaving result lent.new ≡ step_of world request lent.old }
{
    let World { host, chip } = world;
    match request {
        Request::Set(setting) => changed(host::set(host, setting, lent), chip),
        Request::Reset => feeding::listed(update::reset(host, lent), chip, lent),
        Request::PowerLost => changed(host::power_lost(host), chip::power_lost(chip)),
        Request::Update => feeding::updated(update::update(host, lent), chip, lent),
        Request::Lock => changed(host::lock(host), chip),
    }
}

// A call that writes no list, and the chip after it.
fn changed(changed: Changed, chip: Chip) -> Stepped
    ensures { result ≡ changed_by changed chip }
{
    Stepped {
        answer: CallAnswer::Setting(changed.numbers),
        world: World {
            host: changed.host,
            chip,
        },
    }
}

// Clear on a world. It is no call of the claim about whole lists.
#[tactic(auto, using(crate::proofs::FedLists::clear_within))]
pub fn clear(world: World, buffer: &mut [u8]) -> Stepped
    ensures { leaving result buffer.new ≡ clear_step world buffer.old }
{
    feeding::listed(update::clear(world.host, buffer), world.chip, buffer)
}

// The ledger of a newly opened member. A member above 4 is never opened, and gives the ledger of member 0.
pub fn opened_ledger(member: usize) -> Ledger
    ensures { result ≡ opened_ledger member }
{
    ledgers::opened(member)
}

// The ledger that is told of one more call, and of its answer whether it was that of a locked register.
#[tactic(auto, unfolding(crate::specs::Ledger::entered_of))]
pub fn enter(ledger: Ledger, request: Request, lent: &[u8], locked: bool) -> Ledger
    ensures { result ≡ entered_of ledger (told_of request lent.now locked) }
{
    if locked {
        ledger
    } else {
        ledgers::entered(ledger, request, lent)
    }
}
