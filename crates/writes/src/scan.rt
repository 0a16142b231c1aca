// The writes of an update, one after the other: the next differing address, and how far its write goes.
//
// In a sound record a differing byte may be written, so the scan looks for differing bytes alone, and asks whether an address may be
// written only of the one or two that a write would send again.
ghost use Rattle.std.specs.Prelude.{◌≡◌, true, false, ℕ, ◌+◌, ◌<◌, ◌≤◌, length, get_or, MatchOption, IfSome};
ghost use Rattle.plan.specs.NextLaws.{Quiet, Closed, Extends};
ghost use Rattle.host.specs.Record.{record_of, record_behind, may_write};
ghost use Rattle.writes.specs.Marks.{marks_of, Whole};
ghost use Rattle.writes.specs.Found.{differs_at, Agree, SameTo, FirstDiffering, DifferTo, NoneDiffers, Near, GoesTo, WriteEnd, Placed, NextWrite, Small, Counted};

use crate::members::{Member, member_of};
use host::{Header, RecordRef};

// Whether an address may be written: it is writable for the member, and no locked one.
pub fn may_write(header: Header, address: usize) -> bool
    ensures { result ≡ may_write header address }
{
    member_may_write(member_of(header), address)
}

// The same, with the member's lines and columns at hand.
fn member_may_write(member: Member, address: usize) -> bool
    ensures { result ≡ may_write member.header address }
{
    if host::lock_keeps(member.header, address) {
        return false;
    }
    let code = member.header.member as usize;
    let kind = map::kind_at(address);
    let mask = map::reserved_as(kind, code, member.lines, member.columns, address);
    mask < 255
}

// So many bytes are compared at once where nothing differs, and so many in the block that has the difference.
const BLOCK: usize = 32;

const PART: usize = 4;

// Whether the `size` bytes from `from` on are the same in both. The bits are gathered with no early return, so that many bytes are taken
// at once.
fn same_block(settings: &[u8; 908], image: &[u8; 908], from: usize, size: usize) -> bool
    requires { from + size ≤ 908 }
    ensures { result ≡ true → SameTo settings.now image.now from (from + size) }
{
    let mut bits = 0;
    for i in 0..size {
        bits |= settings[from + i] ^ image[from + i];
    }
    bits == 0
}

// The address behind the blocks of `size` same bytes from `from` on.
fn past_same(settings: &[u8; 908], image: &[u8; 908], from: usize, size: usize) -> usize
    requires { (0 < size) × (size ≤ 908) }
    ensures { SameTo settings.now image.now from result }
{
    let mut a = from;
    while a <= 908 - size && same_block(settings, image, a, size) {
        a += size;
    }
    a
}

// The first address from `from` on at which the two differ.
fn first_differing(settings: &[u8; 908], image: &[u8; 908], from: usize) -> Option<usize>
    ensures { MatchOption result (Agree settings.now image.now from 908) (λ a. FirstDiffering settings.now image.now from a) }
{
    let block = past_same(settings, image, from, BLOCK);
    let part = past_same(settings, image, block, PART);
    for a in part..908 {
        if settings[a] != image[a] {
            return Some(a);
        }
    }
    None
}

fn differs(settings: &[u8; 908], image: &[u8; 908], a: usize) -> bool
    ensures { result ≡ differs_at settings.now image.now a }
{
    a < 908 && settings[a] != image[a]
}

// The address behind the differing bytes from `from` on.
fn past_differing(settings: &[u8; 908], image: &[u8; 908], from: usize) -> usize
    requires { from ≤ 908 }
    ensures { DifferTo settings.now image.now from result }
{
    for a in from..908 {
        if settings[a] == image[a] {
            return a;
        }
    }
    908
}

// The next differing address behind `end`, if at most two addresses from `end` on lie before it.
fn near(settings: &[u8; 908], image: &[u8; 908], end: usize) -> Option<usize>
    requires { end ≤ 908 }
    ensures { MatchOption result (NoneDiffers settings.now image.now (end + 1) (end + 3)) (λ next. Near settings.now image.now end next) }
{
    (end + 1..end + 3).find(|a| differs(settings, image, *a))
}

// The first hole from `from` up to `to`, an address that may not be written: one or two addresses.
fn hole(member: Member, from: usize, to: usize) -> Option<usize>
    requires { (from < to) × (to ≤ from + 2) }
    ensures { MatchOption result ((a : ℕ) → from ≤ a → a < to → may_write member.header a ≡ true)
        (λ a. (from ≤ a) × (a < to) × (may_write member.header a ≡ false)
        × ((k : ℕ) → from ≤ k → k < a → may_write member.header k ≡ true)) }
{
    if !member_may_write(member, from) {
        return Some(from);
    }
    if from + 1 < to && !member_may_write(member, from + 1) {
        return Some(from + 1);
    }
    None
}

// Where the write goes on to that has come to `end`, where the two are the same: behind the next differing bytes, if they join.
fn further(member: Member, settings: &[u8; 908], image: &[u8; 908], end: usize) -> Option<usize>
    requires { (0 < end) × (end ≤ 908) × (end < 908 → get_or settings.now end 0 ≡ get_or image.now end 0) }
    ensures placed { IfSome result (λ next. GoesTo settings.now image.now end next) }
    ensures further { Whole (record_of member.header settings.now image.now) →
        MatchOption result (Closed (marks_of (record_of member.header settings.now image.now)) end)
        (λ next. Extends (marks_of (record_of member.header settings.now image.now)) end next) }
{
    let next = near(settings, image, end)?;
    match hole(member, end, next) {
        Some(_) => None,
        None => Some(past_differing(settings, image, next + 1)),
    }
}

// Where the write ends that has come to `from`.
fn write_end(member: Member, settings: &[u8; 908], image: &[u8; 908], from: usize) -> usize
    requires { (0 < from) × (from ≤ 908) }
    ensures { (from ≤ result) × (result ≤ 908) × (Whole (record_of member.header settings.now image.now) →
        WriteEnd (marks_of (record_of member.header settings.now image.now)) from result) }
{
    let mut end = past_differing(settings, image, from);
    while let Some(next) = further(member, settings, image, end) {
        end = next;
    }
    end
}

// The addresses from `start` up to, not including, `end`.
#[derive(Clone, Copy)]
pub struct Write {
    pub start: usize,
    pub end: usize,
}

// The next write from `from` on, which is 1 at first and then the end of the write before. 000h is written apart from the others: the
// plan begins at 001h.
pub fn next_write(r: RecordRef<'_>, from: usize) -> Option<Write>
    ensures placed { IfSome result (λ w. Placed from w.start w.end) }
    ensures next_write { Whole (record_behind r.entry) →
        MatchOption result (Quiet (marks_of (record_behind r.entry)) from 908)
        (λ w. NextWrite (marks_of (record_behind r.entry)) from w.start w.end) }
{
    let settings: &[u8; 908] = r.settings.try_into().ok()?;
    let image: &[u8; 908] = r.image.try_into().ok()?;
    let start = first_differing(settings, image, from.max(1))?;
    Some(Write {
        start,
        end: write_end(member_of(r.header), settings, image, start + 1),
    })
}

// So many writes, and so many bus bytes together.
#[derive(Clone, Copy)]
pub struct Count {
    pub writes: usize,
    pub bytes: usize,
}

// All writes of the plan.
pub fn count_writes(r: RecordRef<'_>) -> Count
    ensures small { Small result.writes result.bytes }
    ensures counted { Whole (record_behind r.entry) → Counted (marks_of (record_behind r.entry)) result.writes result.bytes }
{
    let mut count = Count {
        writes: 0,
        bytes: 0,
    };
    let mut from = 1;
    while let Some(write) = next_write(r, from) {
        count.writes += 1;
        count.bytes += write.end - write.start + 2;
        from = write.end;
    }
    count
}
