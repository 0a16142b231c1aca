// What each call answers: the refusals in the order that the calls check them.
ghost use Rattle.std.specs.Prelude.{◌≡◌, cond, leb};
ghost use Rattle.host.specs.Record.{record_behind, sound_of, sound_answer, register_answer, when_dot, arguments_answer, setting_answer};

use crate::{Header, RecordRef, locks, scenes};
use calls::Setting;
use map::{Answer, Refusal};

// Whether a record is sound, whose images are lent.
#[tactic(auto, unfolding(crate::specs::Record::sound_of, map::specs::Refusals::opens))]
pub fn sound_parts(r: RecordRef<'_>) -> bool
    ensures { result ≡ sound_of (record_behind r.entry) }
{
    let member = r.header.member as usize;
    map::open_answer(member, r.header.bus as usize, r.header.pins as usize).is_ok()
        && images::image_ok(member, r.settings)
        && images::image_ok(member, r.image)
        && locks::marks_ok(r)
}

// What a call answers that refuses an unsound record and nothing else.
#[tactic(auto, unfolding(crate::specs::Record::sound_answer, crate::specs::Record::when_sound))]
pub fn sound_answer(r: RecordRef<'_>) -> Answer
    ensures { result ≡ sound_answer (record_behind r.entry) }
{
    if sound_parts(r) {
        Ok(())
    } else {
        Err(Refusal::Unsound)
    }
}

// A byte is refused for an address with no writable bit, for a locked address, or for a reserved bit that is not the reset value's; a
// value above 255 has bits that no register has.
fn register(header: Header, address: usize, value: usize) -> Answer
    ensures { result ≡ register_answer header address value }
{
    let member = header.member as usize;
    let kind = map::kind_at(address);
    let mask = map::reserved_as(
        kind,
        member,
        map::lines(member),
        map::columns(member),
        address,
    );
    if 255 <= mask {
        return Err(Refusal::NotWritable);
    }
    if locks::lock_keeps(header, address) {
        return Err(Refusal::Locked);
    }
    if 255 < value {
        return Err(Refusal::ReservedBit);
    }
    let reset = map::reset_as(kind, member, address);
    if value as u8 & mask == reset & mask {
        Ok(())
    } else {
        Err(Refusal::ReservedBit)
    }
}

// A dot's level, group or switch: a value above `top` gets `refusal`.
#[tactic(auto, unfolding(crate::specs::Record::when_dot))]
fn field(
    header: Header,
    line: usize,
    sink: usize,
    value: usize,
    top: usize,
    refusal: Refusal,
) -> Answer
    ensures { result ≡ when_dot header line sink (cond (leb value top) (Ok tt) (Err refusal)) }
{
    if !map::is_dot(header.member as usize, line, sink) {
        return Err(Refusal::NoDot);
    }
    if top < value {
        return Err(refusal);
    }
    Ok(())
}

// The arguments of a setting, for a sound record.
fn arguments(r: RecordRef<'_>, setting: Setting, lent: &[u8]) -> Answer
    ensures { result ≡ arguments_answer r.entry.header r.entry.settings.now setting lent.now }
{
    match setting {
        Setting::Register { address, value } => register(r.header, address, value),
        Setting::Lamp { line, sink, level } => {
            let top = dots::top_level(r.settings);
            field(r.header, line, sink, level, top, Refusal::Level)
        }
        Setting::Group { line, sink, group } => {
            field(r.header, line, sink, group, 3, Refusal::GroupOrState)
        }
        Setting::Switch { line, sink, state } => {
            field(r.header, line, sink, state, 1, Refusal::GroupOrState)
        }
        Setting::Scene => scenes::answer(r, lent),
    }
}

// What a setting answers; a scene's bytes are lent.
#[tactic(auto, unfolding(crate::specs::Record::setting_answer, crate::specs::Record::sound_answer, crate::specs::Record::when_sound))]
pub fn setting_answer(r: RecordRef<'_>, setting: Setting, lent: &[u8]) -> Answer
    ensures { result ≡ setting_answer (record_behind r.entry) setting lent.now }
{
    sound_answer(r)?;
    arguments(r, setting, lent)
}
