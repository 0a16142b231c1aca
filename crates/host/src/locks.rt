// The lock over the factory-set registers 003h and 004h: a mark of the record, what it keeps, and what Lock answers.
ghost use Rattle.std.specs.Prelude.{◌≡◌, cond, get_or};
ghost use Rattle.map.specs.Refusals.{accepted};
ghost use Rattle.host.specs.Record.{record_behind, marked_as, is_trim, is_locked, lock_keeps, same_trims, marks_ok, is_lockable, lock_answer};

use crate::{Header, RecordRef, answers};
use map::{Answer, Refusal};

// The marks of a record: none, or the lock.
pub const FREE: u8 = 0;

pub const LOCKED: u8 = 1;

#[tactic(auto, unfolding(crate::specs::Record::is_trim))]
fn is_trim(address: usize) -> bool
    ensures { result ≡ is_trim address }
{
    address == 0x003 || address == 0x004
}

// Whether the lock is set.
#[tactic(auto, unfolding(crate::specs::Record::is_locked))]
pub fn is_locked(header: Header) -> bool
    ensures { result ≡ is_locked header }
{
    header.marks % 2 == 1
}

// Whether an address is a locked one.
#[tactic(auto, unfolding(crate::specs::Record::lock_keeps))]
pub fn lock_keeps(header: Header, address: usize) -> bool
    ensures { result ≡ lock_keeps header address }
{
    is_trim(address) && is_locked(header)
}

// A byte of an image, 0 beyond its end.
fn byte_at(image: &[u8], address: usize) -> u8
    ensures { result ≡ get_or image.now address 0 }
{
    image.get(address).copied().unwrap_or(0)
}

// Whether the two images have the same factory-set registers.
#[tactic(auto, unfolding(crate::specs::Record::same_trims))]
fn same_trims(r: RecordRef<'_>) -> bool
    ensures { result ≡ same_trims r.entry.settings.now r.entry.image.now }
{
    byte_at(r.settings, 0x003) == byte_at(r.image, 0x003)
        && byte_at(r.settings, 0x004) == byte_at(r.image, 0x004)
}

// Whether there are such marks, and a locked record has its factory-set registers in the chip image.
#[tactic(auto, unfolding(crate::specs::Record::marks_ok))]
pub(crate) fn marks_ok(r: RecordRef<'_>) -> bool
    ensures { result ≡ marks_ok (record_behind r.entry) }
{
    r.header.marks <= LOCKED && (!is_locked(r.header) || same_trims(r))
}

// Whether a record that is sound can be locked.
#[tactic(auto, unfolding(crate::specs::Record::is_lockable, crate::specs::Record::is_on))]
fn is_lockable(r: RecordRef<'_>) -> bool
    ensures { result ≡ is_lockable (record_behind r.entry) }
{
    !is_locked(r.header) && byte_at(r.image, 0x000) % 2 == 1 && same_trims(r)
}

// What Lock answers.
#[tactic(auto, unfolding(crate::specs::Record::lock_answer, crate::specs::Record::sound_answer, crate::specs::Record::when_sound))]
pub fn lock_answer(r: RecordRef<'_>) -> Answer
    ensures { result ≡ lock_answer (record_behind r.entry) }
{
    answers::sound_answer(r)?;
    if is_lockable(r) {
        Ok(())
    } else {
        Err(Refusal::NotLockable)
    }
}

// A header with other marks.
pub fn with_marks(mut header: Header, marks: u8) -> Header
    ensures { result ≡ marked_as header marks }
{
    header.marks = marks;
    header
}

// The header that a call leaves which puts these marks.
pub(crate) fn marked(answer: Answer, header: Header, marks: u8) -> Header
    ensures { result ≡ cond (accepted answer) (marked_as header marks) header }
{
    match answer {
        Ok(()) => with_marks(header, marks),
        Err(_) => header,
    }
}
