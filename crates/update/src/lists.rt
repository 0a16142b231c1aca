// The list of an update: its sizes first, then its pieces; and the image that takes it.
ghost use Rattle.std.specs.Prelude.{◌≡◌, List, ◌++◌, ℕ, ◌+◌, ◌-◌, ◌*◌, ◌≤◌, length};
ghost use Rattle.std.proofs.lemmas.List.Edits.{sets};
ghost use Rattle.burst.specs.Burst.{size_bytes, sizes_bytes};
ghost use Rattle.plan.specs.Update.{value_at, on_by};
ghost use Rattle.host.specs.Record.{record_of, record_behind};
ghost use Rattle.writes.specs.Marks.{chip_view, Whole};
ghost use Rattle.writes.specs.Written.{transaction_lengths, transaction_bytes, writes_bytes};
ghost use Rattle.update.specs.Update.{update_answer, update_stored, update_of, update_buffer};
ghost use Rattle.update.specs.Pieces.{enable_count, enable_writes, planned, pending, ListSizes, UpdateSent};

use crate::{ListAnswer, Listed, NotListed};
use host::{Header, RecordRef};

// 1 where settings and chip image disagree in chip enable.
fn enable_count(r: RecordRef<'_>) -> usize
    requires { Whole (record_behind r) }
    ensures { (result ≡ enable_count (on_by (value_at r.entry.settings.now)) (chip_view (record_behind r.entry))) × (result ≤ 1) }
{
    if r.settings[0] % 2 == r.image[0] % 2 {
        0
    } else {
        1
    }
}

// What an update sends: n transactions of t bytes together, `first` of them to 000h.
#[derive(Clone, Copy)]
struct Size {
    first: usize,
    n: usize,
    t: usize,
}

fn list_sizes(r: RecordRef<'_>) -> Size
    requires { Whole (record_behind r) }
    ensures { ListSizes (record_behind r.entry) result.first result.n result.t }
{
    let first = enable_count(r);
    if r.settings[0] % 2 != 1 {
        return Size {
            first,
            n: first,
            t: 3 * first,
        };
    }
    let all = writes::count_writes(r);
    Size {
        first,
        n: first + all.writes,
        t: 3 * first + all.bytes,
    }
}

// n and t, and the length and the transaction of the write of 000h if there is one.
fn put_front(buffer: &mut [u8], size: Size, header: Header, settings: &[u8])
    requires { (size.first ≤ 1) × (size.n ≤ 909) }
    ensures { buffer.new ≡
        sets (sets buffer.old 0 ((size_bytes size.n ++ size_bytes size.t) ++ sizes_bytes (transaction_lengths (enable_writes size.first))))
        (4 + 2 * size.n) (transaction_bytes header settings.now (enable_writes size.first)) }
{
    writes::put_header(buffer, size.n, size.t);
    if size.first == 1 {
        writes::put_length(buffer, 0, 3);
        writes::put_transaction(buffer, 4 + 2 * size.n, header, settings, 0, 1);
    }
}

// The lengths and the transactions of the plan's writes up to the list's n-th, behind `first` others of one byte.
fn put_planned(buffer: &mut [u8], size: Size, r: RecordRef<'_>)
    requires { Whole (record_behind r) × ListSizes (record_behind r) size.first size.n size.t }
    ensures { buffer.new ≡
        sets (sets buffer.old (4 + 2 * size.first) (sizes_bytes (transaction_lengths (planned (record_behind r.entry) (size.n - size.first)))))
        (4 + 2 * size.n + 3 * size.first) (transaction_bytes r.entry.header r.entry.settings.now (planned (record_behind r.entry) (size.n - size.first))) }
{
    let mut from = 1;
    let mut at = 4 + 2 * size.n + 3 * size.first;
    for i in size.first..size.n {
        // n counts them: there is one more
        let write = writes::next_write(r, from).unwrap();
        let len = write.end - write.start;
        writes::put_length(buffer, i, len + 2);
        writes::put_transaction(buffer, at, r.header, r.settings, write.start, len);
        at += len + 2;
        from = write.end;
    }
}

// The whole list: n and t, the lengths, the transactions.
fn put_list(buffer: &mut [u8], size: Size, r: RecordRef<'_>)
    requires { Whole (record_behind r) × ListSizes (record_behind r) size.first size.n size.t }
    ensures { buffer.new ≡
        sets buffer.old 0 (writes_bytes r.entry.header r.entry.settings.now (pending (record_behind r.entry) size.first)) }
{
    put_front(buffer, size, r.header, r.settings);
    put_planned(buffer, size, r);
}

// The list of an update on lent images; `store_sent` takes it into the image. Sizes come first, so that a short buffer is refused before
// a byte is written.
pub fn update_parts(r: RecordRef<'_>, buffer: &mut [u8]) -> ListAnswer
    ensures value { result ≡ update_answer (record_behind r.entry) (length buffer.old) }
    ensures buffer_after { buffer.new ≡ update_buffer (record_behind r.entry) buffer.old }
{
    host::sound_answer(r)?;
    let size = list_sizes(r);
    let needed = 4 + 2 * size.n + size.t;
    if buffer.len() < needed {
        return Err(NotListed::Short { needed });
    }
    put_list(buffer, size, r);
    Ok(Listed {
        n: size.n,
        t: size.t,
    })
}

// The image takes the list of an update with this answer, which stands at the front of the buffer: of its bytes those that were sent, and
// no others. It answers how many bytes it stored.
pub fn store_sent(answer: ListAnswer, header: Header, image: &mut [u8], buffer: &[u8]) -> usize
    ensures stored { (settings lent : List ℕ) → UpdateSent answer header settings image.old lent buffer.now →
        result ≡ update_stored (record_of header settings image.old) (length lent) }
    ensures image_after { (settings lent : List ℕ) → UpdateSent answer header settings image.old lent buffer.now →
        image.new ≡ (update_of (record_of header settings image.old) (length lent)).host.image }
{
    match answer {
        Ok(_) => writes::store_list(image, header.bus, buffer),
        Err(_) => 0,
    }
}
