// `poke` and `header`: what is put behind the calls' back, to make unsound records and chips.
ghost use Rattle.std.specs.Prelude.{◌≡◌, List, ℕ, ◌<◌};
ghost use Rattle.session.specs.Run.{Does, poked, header_with, chip_with, with_entry, behind_back};

use crate::Session;
use crate::outcomes::{Outcome, numbered};
use chip::Chip;
use history::World;
use host::Header;
use script::{Entry, Part};

// The ledger says nothing any more.
#[tactic(auto, unfolding(crate::specs::Run::behind_back))]
fn put(world: World) -> Outcome
    ensures { (buffer : List ℕ) → Does result buffer (behind_back world) }
{
    let session = Session {
        world,
        ledger: None,
    };
    numbered(Ok(()), session)
}

#[tactic(auto, unfolding(crate::specs::Run::poked))]
fn poked(mut world: World, part: Part, address: usize, value: u8) -> World
    requires { address < 908 }
    ensures { result ≡ poked world part address value }
{
    match part {
        Part::Settings => world.host.settings[address] = value,
        Part::Image => world.host.image[address] = value,
        Part::Chip => world.chip.registers[address] = value,
    }
    world
}

pub(crate) fn poke(session: Session, part: Part, address: usize, value: usize) -> Outcome
    requires { (address < 908) × (value < 256) }
    ensures { (buffer : List ℕ) → Does result buffer (behind_back (poked session.world part address value)) }
{
    put(poked(session.world, part, address, value as u8))
}

#[tactic(auto, unfolding(crate::specs::Run::header_with))]
fn header_with(mut header: Header, entry: Entry, value: u8) -> Header
    ensures { result ≡ header_with header entry value }
{
    match entry {
        Entry::Member => header.member = value,
        Entry::Bus => header.bus = value,
        Entry::Pins => header.pins = value,
        Entry::Lock => header.marks = value,
    }
    header
}

// (Another struct than the header, and it has no lock.)
#[tactic(auto, unfolding(crate::specs::Run::chip_with))]
fn chip_with(mut chip: Chip, entry: Entry, value: u8) -> Chip
    ensures { result ≡ chip_with chip entry value }
{
    match entry {
        Entry::Member => chip.member = value,
        Entry::Bus => chip.bus = value,
        Entry::Pins => chip.pins = value,
        Entry::Lock => {}
    }
    chip
}

#[tactic(auto, unfolding(crate::specs::Run::with_entry))]
fn with_entry(mut world: World, entry: Entry, value: u8) -> World
    ensures { result ≡ with_entry world entry value }
{
    world.host.header = header_with(world.host.header, entry, value);
    world.chip = chip_with(world.chip, entry, value);
    world
}

pub(crate) fn header(session: Session, entry: Entry, value: usize) -> Outcome
    requires { value < 256 }
    ensures { (buffer : List ℕ) → Does result buffer (behind_back (with_entry session.world entry value)) }
{
    put(with_entry(session.world, entry, value as u8))
}
