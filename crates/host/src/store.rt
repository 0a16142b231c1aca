// What each call stores where it is accepted; a refused one stores nothing.
ghost use Rattle.std.specs.Prelude.{◌≡◌, true, cond, ◌&&◌, List, ℕ, ◌<◌, eqb, ltb, length, set};
ghost use Rattle.map.specs.Refusals.{numbers_of, accepted};
ghost use Rattle.map.specs.Images.{reset_image};
ghost use Rattle.map.specs.Map.{dot_number};
ghost use Rattle.dots.specs.Dots.{put_level};
ghost use Rattle.host.specs.Record.{record_of, opened, open_host, setting_answer, setting_numbers, put_setting};

use crate::locks::FREE;
use crate::{Header, Record, scenes};
use calls::Setting;
use map::{Answer, Field, Numbers};

fn new_record(member: usize, bus: usize, pins: usize) -> Record
    requires { (member < 5) × (bus < 2) × (pins < 4) }
    ensures { result ≡ opened member bus pins }
{
    let image = images::reset_image(member);
    let header = Header {
        member: member as u8,
        bus: bus as u8,
        pins: pins as u8,
        marks: FREE,
    };
    Record {
        header,
        settings: image,
        image,
    }
}

#[tactic(auto, unfolding(crate::specs::Record::open_host))]
pub(crate) fn opened(answer: Answer, member: usize, bus: usize, pins: usize) -> Record
    requires { accepted answer ≡ true → (member < 5) × (bus < 2) × (pins < 4) }
    ensures { result ≡ open_host answer member bus pins }
{
    match answer {
        Ok(()) => new_record(member, bus, pins),
        Err(_) => new_record(0, 0, 0),
    }
}

// One byte, where the image has its address.
fn put_byte(settings: &mut [u8], address: usize, value: u8)
    ensures { settings.new ≡ set settings.old address value }
{
    if address < settings.len() {
        settings[address] = value;
    }
}

// The level of a dot of the LP5860, the largest member.
fn put_lamp(settings: &mut [u8], line: usize, sink: usize, level: usize)
    ensures { settings.new ≡ cond (ltb line 11 && ltb sink 18) (put_level settings.old (dot_number line sink) level) settings.old }
{
    if line < 11 && sink < 18 {
        dots::put_level(settings, (18 * line + sink) as u8, level);
    }
}

// What a setting puts into the settings where its answer, that of a record with these settings, is Ok. It gives back the number of
// that answer, with the values that come with it: none of these settings has any.
pub fn put_setting(
    answer: Answer,
    header: Header,
    settings: &mut [u8],
    setting: Setting,
    lent: &[u8],
) -> Numbers
    ensures settings_after { (image : List ℕ) → answer ≡ setting_answer (record_of header settings.old image) setting lent.now →
        settings.new ≡ cond (accepted answer) (put_setting settings.old setting lent.now) settings.old }
    ensures numbers { (image : List ℕ) → answer ≡ setting_answer (record_of header settings.old image) setting lent.now →
        result ≡ numbers_of (setting_numbers (record_of header settings.old image) setting lent.now) }
{
    let numbers = map::answer_numbers(answer);
    let Ok(()) = answer else {
        return numbers;
    };
    let member = header.member as usize;
    match setting {
        Setting::Register { address, value } => put_byte(settings, address, (value % 256) as u8),
        Setting::Lamp { line, sink, level } => put_lamp(settings, line, sink, level),
        Setting::Group { line, sink, group } => {
            let value = (group % 256) as u8;
            dots::put_field(Field::Group, member, settings, line, sink, value);
        }
        Setting::Switch { line, sink, state } => {
            let value = (state % 256) as u8;
            dots::put_field(Field::Switch, member, settings, line, sink, value);
        }
        Setting::Scene => scenes::put(settings, lent),
    }
    numbers
}

// The reset values, into the image of a record whose Power lost or Reset was accepted.
pub fn put_lost(answer: Answer, header: Header, image: &mut [u8])
    ensures { image.new ≡ cond (accepted answer && eqb (length image.old) 908) (reset_image header.member) image.old }
{
    if answer.is_ok() {
        images::put_reset(header.member as usize, image);
    }
}
