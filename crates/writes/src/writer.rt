// The writer: what stands in a list, piece by piece.
ghost use Rattle.std.specs.Prelude.{◌≡◌, ◌++◌, ◌+◌, ◌-◌, ◌*◌, ◌<◌, ◌≤◌, min, length, take, drop};
ghost use Rattle.std.proofs.lemmas.List.Edits.{sets};
ghost use Rattle.burst.specs.Burst.{size_bytes, put_size, transaction_of};
ghost use Rattle.plan.specs.Update.{data_of};

use host::Header;

// How many of `len` places from `at` on there are in `size`.
fn room(size: usize, at: usize, len: usize) -> usize
    ensures { result ≡ min len (size - at) }
{
    len.min(size.saturating_sub(at))
}

// `len` bytes of `from`, from `start` on, go to the places of `to` from `at` on. It answers how many, counted as they are stored. A loop, since
// copying by slices, which might overlap, takes a function of the C library that a program need not have.
pub(crate) fn store(to: &mut [u8], at: usize, from: &[u8], start: usize, len: usize) -> usize
    requires { 0 < len → (at + len ≤ length to.old) × (start + len ≤ length from.now) }
    ensures value { result ≡ len }
    ensures to_after { to.new ≡ sets to.old at (take len (drop start from.now)) }
{
    let mut stored = 0;
    for i in 0..len {
        to[at + i] = from[start + i];
        stored += 1;
    }
    stored
}

// The same of bytes and places that may not all be there: what lies behind either end is left out.
pub fn copy(to: &mut [u8], at: usize, from: &[u8], start: usize, len: usize)
    ensures { to.new ≡ sets to.old at (take len (drop start from.now)) }
{
    let count = room(to.len(), at, room(from.len(), start, len));
    store(to, at, from, start, count);
}

// One transaction at a place: the head, and the settings' bytes from `start` on. What lies behind the buffer's end is left out.
pub fn put_transaction(
    buffer: &mut [u8],
    at: usize,
    header: Header,
    settings: &[u8],
    start: usize,
    len: usize,
)
    ensures { buffer.new ≡
        sets buffer.old at (transaction_of header.bus header.pins (data_of settings.now (record { start = start; len = len }))) }
{
    if buffer.len() <= at {
        return;
    }
    buffer[at] = burst::head_first(header.bus, header.pins, start);
    let next = at + 1;
    if buffer.len() <= next {
        return;
    }
    buffer[next] = burst::head_second(header.bus, start);
    copy(buffer, next + 1, settings, start, len);
}

// n and t, at the front of a list.
pub fn put_header(buffer: &mut [u8], n: usize, t: usize)
    ensures { buffer.new ≡ sets buffer.old 0 (size_bytes n ++ size_bytes t) }
{
    burst::put_size(buffer, 0, n);
    burst::put_size(buffer, 2, t);
}

// The length of the list's transaction `index`, counted from 0.
pub fn put_length(buffer: &mut [u8], index: usize, length: usize)
    ensures { buffer.new ≡ put_size buffer.old (4 + 2 * index) length }
{
    if buffer.len() / 2 < index {
        return;
    }
    burst::put_size(buffer, 4 + 2 * index, length);
}
