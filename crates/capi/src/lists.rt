// What a call stores that writes a list: n and t, how many bytes of the chip image, and the length needed.
ghost use Rattle.std.specs.Prelude.{◌≡◌, ◌^◌, ◌<◌};
ghost use Rattle.update.specs.Update.{list_number};
ghost use Rattle.capi.specs.Capi.{n_after, t_after, stored_after, needed_after, Fits};

use map::Refusal;
use update::{ListAnswer, NotListed};

// The number of a list's answer, and its n and t.
#[tactic(auto, unfolding(crate::specs::Capi::value_after))]
pub(crate) fn count(answer: ListAnswer, n: &mut u32, t: &mut u32) -> u32
    requires { Fits answer }
    ensures value { result ≡ list_number answer }
    ensures n_after { n.new ≡ n_after answer n.old }
    ensures t_after { t.new ≡ t_after answer t.old }
{
    match answer {
        Ok(listed) => {
            *n = listed.n as u32;
            *t = listed.t as u32;
            0
        }
        Err(NotListed::Short { needed: _ }) => map::refusal_number(Refusal::BufferShort) as u32,
        Err(NotListed::Refused(refusal)) => map::refusal_number(refusal) as u32,
    }
}

// How many bytes of the chip image an update stored.
#[tactic(auto, unfolding(crate::specs::Capi::value_after))]
fn put_stored(answer: ListAnswer, count: usize, stored: &mut u32)
    requires { count < 2 ^ 32 }
    ensures { stored.new ≡ stored_after answer count stored.old }
{
    if answer.is_ok() {
        *stored = count as u32;
    }
}

// The length that a short buffer lacks.
#[tactic(auto, unfolding(crate::specs::Capi::value_after))]
fn put_needed(answer: ListAnswer, needed: &mut u32)
    requires { Fits answer }
    ensures { needed.new ≡ needed_after answer needed.old }
{
    if let Err(NotListed::Short { needed: size }) = answer {
        *needed = size as u32;
    }
}

// The number of an update's answer, and all that it stores.
pub(crate) fn put_update(
    answer: ListAnswer,
    sent: usize,
    n: &mut u32,
    t: &mut u32,
    stored: &mut u32,
    needed: &mut u32,
) -> u32
    requires { Fits answer × (sent < 2 ^ 32) }
    ensures value { result ≡ list_number answer }
    ensures n_after { n.new ≡ n_after answer n.old }
    ensures t_after { t.new ≡ t_after answer t.old }
    ensures stored_after { stored.new ≡ stored_after answer sent stored.old }
    ensures needed_after { needed.new ≡ needed_after answer needed.old }
{
    put_stored(answer, sent, stored);
    put_needed(answer, needed);
    count(answer, n, t)
}
