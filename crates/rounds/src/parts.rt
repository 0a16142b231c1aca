// A part of what waits for a chip, write by write: the longest beginning of an update's writes that fits so many bus bytes, the last of them
// cut where it has to be.
ghost use Rattle.std.specs.Prelude.{◌≡◌, ◌+◌, ◌*◌, ◌≤◌, ◌<◌, length, IfSome};
ghost use Rattle.plan.specs.Portion.{portion};
ghost use Rattle.plan.specs.Update.{store_all};
ghost use Rattle.host.proofs.SoundLaws.{Sound};
ghost use Rattle.update.specs.Update.{writes_of};
ghost use Rattle.host.specs.Record.{record_behind};
ghost use Rattle.rounds.specs.Dealing.{put_part, part_transactions};
ghost use Rattle.rounds.specs.Parts.{Past, Reached, NextIs, NextPart, InOrder, Fits, Sized};

use host::RecordRef;
use writes::{Count, Write};

// The next write behind that of 000h. Settings that are off have none.
fn next_planned(r: RecordRef<'_>, from: usize) -> Option<Write>
    requires { Sound (record_behind r) }
    ensures in_order { IfSome result InOrder }
    ensures next_is { NextIs (Past (record_behind r.entry) from) (Past (record_behind r.entry)) result }
{
    if r.settings[0] % 2 != 1 {
        return None;
    }
    writes::next_write(r, from)
}

// The next write of an update from `from` on, which is 0 at first and then the end of the write before.
fn next_waiting(r: RecordRef<'_>, from: usize) -> Option<Write>
    requires { Sound (record_behind r) }
    ensures in_order { IfSome result InOrder }
    ensures next_is { NextIs (Reached (record_behind r.entry) from) (Reached (record_behind r.entry)) result }
{
    if 0 < from {
        return next_planned(r, from);
    }
    if r.settings[0] % 2 != r.image[0] % 2 {
        return Some(Write { start: 0, end: 1 });
    }
    next_planned(r, 1)
}

// So much of the next write as fits behind two head bytes, if that is a data byte or more. Inlined in both loops, where its record and its
// answer would otherwise go through memory for each write.
#[inline(always)]
fn next_part(r: RecordRef<'_>, from: usize, left: usize) -> Option<Write>
    requires { Sound (record_behind r) }
    ensures fits { IfSome result (Fits left) }
    ensures next_part { NextPart (record_behind r.entry) from left result }
{
    if left < 3 {
        return None;
    }
    let Write { start, end } = next_waiting(r, from)?;
    Some(Write {
        start,
        end: start + (end - start).min(left - 2),
    })
}

// The number of writes and the bus bytes of what fits so much room. Not inlined, so that a place that is absent saves no registers for it.
#[inline(never)]
pub(crate) fn part_size(r: RecordRef<'_>, room: usize) -> Count
    requires sound { Sound (record_behind r) }
    requires narrow { room ≤ 8192 }
    ensures { Sized (portion room (writes_of (record_behind r.entry))) result.writes result.bytes
        × (3 * result.writes ≤ result.bytes) × (result.bytes ≤ room) }
{
    let mut writes = 0;
    let mut from = 0;
    let mut left = room;
    while let Some(part) = next_part(r, from, left) {
        writes += 1;
        from = part.end;
        left -= part.end - part.start + 2;
    }
    Count {
        writes,
        bytes: room - left,
    }
}

// The lengths and the transactions of what fits so much room, from places of the buffer on; the image, which is a copy of the old one, takes
// what is sent. It answers the index of the next transaction.
pub(crate) fn put_writes(
    buffer: &mut [u8],
    index: usize,
    at: usize,
    r: RecordRef<'_>,
    image: &mut [u8],
    room: usize,
) -> usize
    requires sound { Sound (record_behind r) }
    requires narrow { room ≤ 8192 }
    requires near { at ≤ 65536 }
    requires free { 4 + 2 * (index + length (portion room (writes_of (record_behind r)))) ≤ at }
    ensures value { result ≡ index + length (portion room (writes_of (record_behind r.entry))) }
    ensures buffer_after { buffer.new ≡ put_part buffer.old index at (part_transactions (record_behind r.entry) room) }
    ensures image_after { image.new ≡ store_all (portion room (writes_of (record_behind r.entry))) image.old }
{
    let stop = at + room;
    let mut next = index;
    let mut from = 0;
    let mut left = room;
    while let Some(part) = next_part(r, from, left) {
        let len = part.end - part.start;
        writes::put_length(buffer, next, len + 2);
        writes::put_transaction(buffer, stop - left, r.header, r.settings, part.start, len);
        writes::copy(image, part.start, r.settings, part.start, len);
        next += 1;
        from = part.end;
        left -= len + 2;
    }
    next
}
