// The host's record of one chip, and the calls that set it.
//
// A record has a header, its member, bus, pins and marks, and two images of 908 bytes: the settings, and the chip as the host believes
// it. It goes into each call by value and comes back with the call's answer. A call first refuses an unsound record, then checks its
// arguments in the order of its refusals, and a refusal gives the record back unchanged. A setting changes the settings alone;
// nothing reaches the chip before an update. A lock keeps the two factory-set registers until a reset or a power loss.
//
// Each call by value is a few lines over functions on a record whose images are lent (`setting_answer`, `put_setting`, `sound_answer`,
// `put_lost`, `lock_answer`), which a caller uses that keeps its record elsewhere. They take images of any length: another than 908 is unsound.
#![tactic(auto)]

mod answers;
mod locks;
mod scenes;
mod store;

ghost use Rattle.std.specs.Prelude.{◌≡◌};
ghost use Rattle.host.specs.Record.{record_behind, sound_of, open_of, setting_of, register_of, lamp_of, group_of, switch_of, scene_of, power_lost_of, lock_of};

pub use answers::{setting_answer, sound_answer, sound_parts};
use calls::Setting;
pub use locks::{FREE, LOCKED, is_locked, lock_answer, lock_keeps, with_marks};
use map::{Answer, Numbers};
pub use store::{put_lost, put_setting};

// What a record has beside its images. Member, bus and marks are numbers and no enums: they are bytes of a record in C, which may hold any.
#[derive(Clone, Copy)]
pub struct Header {
    pub member: u8,
    pub bus: u8,
    pub pins: u8,
    pub marks: u8,
}

#[derive(Clone, Copy)]
pub struct Record {
    pub header: Header,
    pub settings: [u8; 908],
    pub image: [u8; 908],
}

// A record whose images are lent.
#[derive(Clone, Copy)]
pub struct RecordRef<'a> {
    pub header: Header,
    pub settings: &'a [u8],
    pub image: &'a [u8],
}

impl Record {
    pub fn lent(&self) -> RecordRef<'_>
        ensures { record_behind result ≡ self.now }
    {
        RecordRef {
            header: self.header,
            settings: &self.settings,
            image: &self.image,
        }
    }
}

// What a call answers, the number of that answer with the values that it has, and the host's record that it gives back.
#[derive(Clone, Copy)]
pub struct Changed {
    pub answer: Answer,
    pub numbers: Numbers,
    pub host: Record,
}

// Whether Open takes the record's member, bus and pins, both images have reset values in reserved bits and outside the writable
// addresses, and the marks are right.
pub fn sound(r: Record) -> bool
    ensures { result ≡ sound_of r }
{
    sound_parts(r.lent())
}

// A new record of a member, on bus 0 (I2C, with the chip's two address pins) or 1 (SPI, pins 0).
pub fn open(member: usize, bus: usize, pins: usize) -> Changed
    ensures { result ≡ open_of member bus pins }
{
    let answer = map::open_answer(member, bus, pins);
    let host = store::opened(answer, member, bus, pins);
    Changed {
        answer,
        numbers: map::answer_numbers(answer),
        host,
    }
}

// Any setting; a scene's bytes are lent.
pub fn set(mut r: Record, setting: Setting, lent: &[u8]) -> Changed
    ensures { result ≡ setting_of r setting lent.now }
{
    let answer = setting_answer(r.lent(), setting, lent);
    let numbers = put_setting(answer, r.header, &mut r.settings, setting, lent);
    Changed {
        answer,
        numbers,
        host: r,
    }
}

// One register, a whole byte.
pub fn register(r: Record, address: usize, value: u8) -> Changed
    ensures { result ≡ register_of r address value }
{
    let setting = Setting::Register {
        address,
        value: value as usize,
    };
    set(r, setting, b"")
}

// The level of one dot, in 8 or 16 bits by the data mode of the settings.
pub fn lamp(r: Record, line: usize, sink: usize, level: usize) -> Changed
    ensures { result ≡ lamp_of r line sink level }
{
    let setting = Setting::Lamp { line, sink, level };
    set(r, setting, b"")
}

// The brightness group of one dot: 1 to 3, or 0 for none.
pub fn group(r: Record, line: usize, sink: usize, value: usize) -> Changed
    ensures { result ≡ group_of r line sink value }
{
    let setting = Setting::Group {
        line,
        sink,
        group: value,
    };
    set(r, setting, b"")
}

// One dot on (1) or off (0).
pub fn switch(r: Record, line: usize, sink: usize, state: usize) -> Changed
    ensures { result ≡ switch_of r line sink state }
{
    let setting = Setting::Switch { line, sink, state };
    set(r, setting, b"")
}

// Many levels at once: a count n of two bytes, n dot numbers of one byte, n levels of two bytes, low byte first.
pub fn scene(r: Record, bytes: &[u8]) -> Changed
    ensures { result ≡ scene_of r bytes.now }
{
    set(r, Setting::Scene, bytes)
}

// The chip has lost its power, so that it holds its reset values. The settings are kept, and a lock is released.
pub fn power_lost(mut r: Record) -> Changed
    ensures { result ≡ power_lost_of r }
{
    let answer = sound_answer(r.lent());
    put_lost(answer, r.header, &mut r.image);
    r.header = locks::marked(answer, r.header, FREE);
    Changed {
        answer,
        numbers: map::answer_numbers(answer),
        host: r,
    }
}

// Lock the factory-set registers 003h and 004h, where the chip is on and has the settings of both. Until an accepted reset or power loss
// neither can be set, and no update writes them.
pub fn lock(mut r: Record) -> Changed
    ensures { result ≡ lock_of r }
{
    let answer = lock_answer(r.lent());
    r.header = locks::marked(answer, r.header, LOCKED);
    Changed {
        answer,
        numbers: map::answer_numbers(answer),
        host: r,
    }
}
