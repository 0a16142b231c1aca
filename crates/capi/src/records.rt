// Where the parts of a record and of a chip stand in the bytes that a C program keeps; what Open, Power lost and Reset put there.
ghost use Rattle.std.specs.Prelude.{◌≡◌, ◌∷◌, ◌<◌, ◌≤◌, length, drop, set};
ghost use Rattle.host.specs.Record.{record_behind, opened, free, chip_reset};
ghost use Rattle.chip.specs.Chip.{new_chip};
ghost use Rattle.capi.specs.Capi.{header_in, marks_at, record_in, record_bytes, record_size, chip_bytes, chip_size};

use host::{Header, RecordRef};

// Where the marks, the settings and the chip image of a record begin, and where it ends.
pub(crate) const MARKS: usize = 3;

pub(crate) const SETTINGS: usize = MARKS + 1;

pub(crate) const IMAGE: usize = SETTINGS + 908;

pub(crate) const RECORD_SIZE: usize = IMAGE + 908;

// Where the registers of a chip begin, and where it ends.
pub(crate) const REGISTERS: usize = 3;

pub(crate) const CHIP_SIZE: usize = REGISTERS + 908;

#[tactic(auto, unfolding(crate::specs::Capi::header_in))]
fn header(bytes: &[u8]) -> Header
    requires { 4 ≤ length bytes.now }
    ensures { result ≡ header_in bytes.now }
{
    Header {
        member: bytes[0],
        bus: bytes[1],
        pins: bytes[2],
        marks: bytes[MARKS],
    }
}

// The record that the bytes hold.
pub(crate) fn record(bytes: &[u8]) -> RecordRef<'_>
    requires { length bytes.now ≡ record_size }
    ensures { record_behind result ≡ record_in bytes.now }
{
    RecordRef {
        header: header(bytes),
        settings: &bytes[SETTINGS..IMAGE],
        image: &bytes[IMAGE..RECORD_SIZE],
    }
}

// The marks of a record.
pub(crate) fn put_marks(bytes: &mut [u8], marks: u8)
    requires { 4 ≤ length bytes.old }
    ensures { bytes.new ≡ set bytes.old marks_at marks }
{
    bytes[MARKS] = marks;
}

// What a power loss and a reset leave of a record: the member's reset values for the chip image, and no lock.
pub(crate) fn put_reset(bytes: &mut [u8])
    requires { length bytes.old ≡ record_size }
    ensures { bytes.new ≡ record_bytes (chip_reset (record_in bytes.old)) }
{
    let header = header(bytes);
    images::put_reset(header.member as usize, &mut bytes[IMAGE..RECORD_SIZE]);
    put_marks(bytes, host::FREE); // a lock is released
}

// The bytes that a record and a chip begin with.
fn put_front(bytes: &mut [u8], member: u8, bus: u8, pins: u8)
    requires { 3 ≤ length bytes.old }
    ensures { bytes.new ≡ member ∷ bus ∷ pins ∷ drop 3 bytes.old }
{
    bytes[..3].copy_from_slice(&[member, bus, pins]);
}

// The header of a record that was opened: the front, and no lock.
fn put_header(bytes: &mut [u8], member: u8, bus: u8, pins: u8)
    requires { 4 ≤ length bytes.old }
    ensures { bytes.new ≡ set (member ∷ bus ∷ pins ∷ drop 3 bytes.old) marks_at free }
{
    put_front(bytes, member, bus, pins);
    put_marks(bytes, host::FREE); // behind the front
}

// A record that was opened: its header, and the member's reset values for both images.
pub(crate) fn put_record(bytes: &mut [u8], member: usize, bus: usize, pins: usize)
    requires { (length bytes.old ≡ record_size) × (member < 5) × (bus < 2) × (pins < 4) }
    ensures { bytes.new ≡ record_bytes (opened member bus pins) }
{
    put_header(bytes, member as u8, bus as u8, pins as u8);
    images::put_reset(member, &mut bytes[SETTINGS..IMAGE]); // the settings
    images::put_reset(member, &mut bytes[IMAGE..RECORD_SIZE]); // the chip image
}

// A chip that was just given power: the front, and the member's reset values.
pub(crate) fn put_chip(bytes: &mut [u8], member: usize, bus: usize, pins: usize)
    requires { (length bytes.old ≡ chip_size) × (member < 5) × (bus < 2) × (pins < 4) }
    ensures { bytes.new ≡ chip_bytes (new_chip member bus pins) }
{
    put_front(bytes, member as u8, bus as u8, pins as u8);
    images::put_reset(member, &mut bytes[REGISTERS..CHIP_SIZE]); // the registers
}
