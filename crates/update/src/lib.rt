// Records to burst lists: Update, Reset and Clear.
//
// An Update brings the chip to the settings with the fewest bus bytes: it sends the addresses at which settings and chip image
// differ, joins neighbours in one write where at most two writable addresses lie between them, and takes what it sends into the
// chip image: those bytes, and no copy of all 908. Reset and Clear are fixed commands. Each call writes its list to the front of the
// caller's buffer, answers the number of transactions and their bytes, and leaves the rest of the buffer as it was.
//
// Each call by value is a few lines over functions on a record with lent images (`update_parts`, `store_sent` and so on), which a
// caller uses that keeps its record elsewhere. They take images of any length: another than 908 is unsound.
#![tactic(auto)]

mod commands;
mod lists;

ghost use Rattle.std.specs.Prelude.{◌≡◌, length};
ghost use Rattle.map.specs.Refusals.{numbers_of};
ghost use Rattle.update.specs.Update.{update_of, update_buffer, chip_reset_of, reset_buffer, clear_of, clear_buffer, list_numbers, update_numbers};

pub use commands::{clear_parts, reset_parts};
use host::Record;
pub use lists::{store_sent, update_parts};
use map::{Numbers, Refusal};

// n transactions of t bytes together.
#[derive(Clone, Copy)]
pub struct Listed {
    pub n: usize,
    pub t: usize,
}

// Why no list was written.
#[derive(Clone, Copy)]
pub enum NotListed {
    // the buffer is shorter than the list, which takes so many bytes
    Short { needed: usize },
    Refused(Refusal),
}

impl From<Refusal> for NotListed {
    ghost use Rattle.update.specs.declared.NotListed.TheVariants.{Refused};

    ghost from_gives = { λ refusal e. e ≡ Refused refusal };

    fn from(refusal: Refusal) -> Self {
        NotListed::Refused(refusal)
    }
}

// What a call answers that writes a list.
pub type ListAnswer = Result<Listed, NotListed>;

// The answer of Reset or Clear, and the host's record that the call gives back.
#[derive(Clone, Copy)]
pub struct Sent {
    pub answer: ListAnswer,
    pub host: Record,
}

// The answer of Update, how many bytes of the chip image it stored (none where no list was written), and the host's record that it gives
// back.
#[derive(Clone, Copy)]
pub struct Updated {
    pub answer: ListAnswer,
    pub stored: usize,
    pub host: Record,
}

// 0 where a list was written, else the refusal's number; and the values that come with it: n and t, or the length needed.
pub fn list_numbers(answer: ListAnswer) -> Numbers
    ensures { result ≡ numbers_of (list_numbers answer) }
{
    match answer {
        Ok(Listed { n, t }) => map::with_values(0, n, t),
        Err(NotListed::Short { needed }) => map::with_value(
            map::refusal_number(Refusal::BufferShort) as usize,
            needed,
        ),
        Err(NotListed::Refused(refusal)) => {
            map::number_alone(map::refusal_number(refusal) as usize)
        }
    }
}

// The same of an update: behind n and t comes how many bytes of the chip image it stored.
pub fn update_numbers(answer: ListAnswer, stored: usize) -> Numbers
    ensures { result ≡ numbers_of (update_numbers answer stored) }
{
    let mut numbers = list_numbers(answer);
    if answer.is_ok() {
        numbers.count = 4;
        numbers.values[3] = stored;
    }
    numbers
}

// Bring the chip to the settings: the shortest list that does so. Afterwards the chip image is what the chip holds once it has heard
// the list.
pub fn update(mut r: Record, buffer: &mut [u8]) -> Updated
    ensures value { result ≡ update_of r (length buffer.old) }
    ensures buffer_after { buffer.new ≡ update_buffer r buffer.old }
{
    let answer = update_parts(r.lent(), buffer);
    let stored = store_sent(answer, r.header, &mut r.image, buffer);
    Updated {
        answer,
        stored,
        host: r,
    }
}

// Put every register of the chip to its reset value. The settings are kept, so that the next update sends them again, and a lock is
// released.
pub fn reset(mut r: Record, buffer: &mut [u8]) -> Sent
    ensures value { result ≡ chip_reset_of r (length buffer.old) }
    ensures buffer_after { buffer.new ≡ reset_buffer r buffer.old }
{
    let answer = reset_parts(r.lent(), buffer);
    if answer.is_ok() {
        images::put_reset(r.header.member as usize, &mut r.image);
        r.header = host::with_marks(r.header, host::FREE);
    }
    Sent { answer, host: r }
}

// Clear the open bits and the short bits of the chip.
pub fn clear(r: Record, buffer: &mut [u8]) -> Sent
    ensures value { result ≡ clear_of r (length buffer.old) }
    ensures buffer_after { buffer.new ≡ clear_buffer r buffer.old }
{
    Sent {
        answer: clear_parts(r.lent(), buffer),
        host: r,
    }
}
