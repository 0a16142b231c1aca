// The transactions of a burst list, as a chip takes them.
ghost use Rattle.std.specs.Prelude.{◌≡◌, ◌+◌, ◌*◌, ◌<◌, ◌≤◌, length};
ghost use Rattle.burst.specs.Burst.{lengths_from, cut_from};
ghost use Rattle.burst.specs.BurstLaws.{Rest};
ghost use Rattle.chip.specs.Chip.{apply, apply_all};

use crate::data;
use crate::decode::{Transaction, decode};
use crate::members::{Member, member_of};

// One transaction: two head bytes and its data.
fn apply_one(member: Member, bus: u8, pins: u8, registers: &mut [u8; 908], transaction: &[u8])
    requires { 3 ≤ length transaction.now }
    ensures { registers.new ≡ apply member.code bus pins registers.old transaction.now }
{
    match decode(bus, pins, transaction[0], transaction[1]) {
        Transaction::Write(start) => data::hear(member, registers, start, &transaction[2..]),
        Transaction::PassesBy => {}
    }
}

// Every transaction of a list with good sizes, whose n is at hand.
pub(crate) fn apply_all(
    member: usize,
    bus: u8,
    pins: u8,
    registers: &mut [u8; 908],
    list: &[u8],
    n: usize,
)
    requires { (n < 65536) × Rest list.now (4 + 2 * n) (lengths_from list.now 4 n) }
    ensures { registers.new ≡ apply_all member bus pins registers.old (cut_from list.now (4 + 2 * n) (lengths_from list.now 4 n)) }
{
    let member = member_of(member);
    let mut at = 4 + 2 * n;
    for i in 0..n {
        let size = burst::size_at(list, 4 + 2 * i);
        apply_one(member, bus, pins, registers, &list[at..at + size]);
        at += size;
    }
}
