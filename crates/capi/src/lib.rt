// The C interface, include/lp586x.h.
//
// A record is 1,820 bytes in the caller's memory and a chip 911. A call works on them where they stand: it lends their parts to the
// functions of host, update, faults and chip, and what changes is stored there and nothing else. It answers 0 or the number of its
// refusal; bytes of another size are refused as an unsound record is. A slice is a pointer and a length in C.
#![tactic(auto)]

mod lists;
mod records;
mod rounding;

ghost use Rattle.std.specs.Prelude.{◌≡◌, [], get_or};
ghost use Rattle.map.specs.declared.refusals.Refusal.TheVariants.{Unsound};
ghost use Rattle.map.specs.Refusals.{refusal_number};
ghost use Rattle.faults.specs.Faults.{answer_numbers};
ghost use Rattle.capi.specs.Calls.{open_call, setting_call, setting_numbers_call, power_lost_call, lock_call, update_call, update_stores, update_needed, reset_call, clear_call, round_call, transaction_call, faults_call, chip_at_reset_call, chip_power_lost_call, chip_feed_call};

use burst::{Place, PlaceError};
use calls::Setting;
use faults::Agreement;
use map::{Numbers, Refusal};
use records::{CHIP_SIZE, IMAGE, RECORD_SIZE, REGISTERS, SETTINGS};

// The answer to bytes of another size: that of an unsound record.
fn wrong_size() -> u32
    ensures { result ≡ refusal_number Unsound }
{
    map::refusal_number(Refusal::Unsound) as u32
}

// ---- The record and its settings

pub fn lp586x_open(bytes: &mut [u8], member: u32, bus: u32, pins: u32) -> u32
    ensures value { result ≡ (open_call bytes.old member bus pins).answer }
    ensures bytes_after { bytes.new ≡ (open_call bytes.old member bus pins).bytes }
{
    if bytes.len() != RECORD_SIZE {
        return wrong_size();
    }
    match map::open_answer(member as usize, bus as usize, pins as usize) {
        Ok(()) => {
            records::put_record(bytes, member as usize, bus as usize, pins as usize);
            0
        }
        Err(refusal) => map::refusal_number(refusal) as u32,
    }
}

// Any setting, and the number and values that it answers; a scene's bytes are lent.
pub fn set_numbers(bytes: &mut [u8], setting: Setting, lent: &[u8]) -> Numbers
    ensures value { result ≡ setting_numbers_call bytes.old setting lent.now }
    ensures bytes_after { bytes.new ≡ (setting_call bytes.old setting lent.now).bytes }
{
    if bytes.len() != RECORD_SIZE {
        return map::number_alone(wrong_size() as usize);
    }
    let r = records::record(bytes);
    let answer = host::setting_answer(r, setting, lent);
    let header = r.header;
    host::put_setting(answer, header, &mut bytes[SETTINGS..IMAGE], setting, lent)
}

// Any setting, and its number alone.
pub fn set(bytes: &mut [u8], setting: Setting, lent: &[u8]) -> u32
    ensures value { result ≡ (setting_call bytes.old setting lent.now).answer }
    ensures bytes_after { bytes.new ≡ (setting_call bytes.old setting lent.now).bytes }
{
    set_numbers(bytes, setting, lent).values[0] as u32
}

pub fn lp586x_register(bytes: &mut [u8], address: u32, value: u32) -> u32
    ensures value { result ≡ (setting_call bytes.old (Setting.Register address value) []).answer }
    ensures bytes_after { bytes.new ≡ (setting_call bytes.old (Setting.Register address value) []).bytes }
{
    let setting = Setting::Register {
        address: address as usize,
        value: value as usize,
    };
    set(bytes, setting, b"")
}

pub fn lp586x_lamp(bytes: &mut [u8], line: u32, sink: u32, level: u32) -> u32
    ensures value { result ≡ (setting_call bytes.old (Setting.Lamp line sink level) []).answer }
    ensures bytes_after { bytes.new ≡ (setting_call bytes.old (Setting.Lamp line sink level) []).bytes }
{
    let setting = Setting::Lamp {
        line: line as usize,
        sink: sink as usize,
        level: level as usize,
    };
    set(bytes, setting, b"")
}

pub fn lp586x_group(bytes: &mut [u8], line: u32, sink: u32, group: u32) -> u32
    ensures value { result ≡ (setting_call bytes.old (Setting.Group line sink group) []).answer }
    ensures bytes_after { bytes.new ≡ (setting_call bytes.old (Setting.Group line sink group) []).bytes }
{
    let setting = Setting::Group {
        line: line as usize,
        sink: sink as usize,
        group: group as usize,
    };
    set(bytes, setting, b"")
}

pub fn lp586x_switch(bytes: &mut [u8], line: u32, sink: u32, state: u32) -> u32
    ensures value { result ≡ (setting_call bytes.old (Setting.Switch line sink state) []).answer }
    ensures bytes_after { bytes.new ≡ (setting_call bytes.old (Setting.Switch line sink state) []).bytes }
{
    let setting = Setting::Switch {
        line: line as usize,
        sink: sink as usize,
        state: state as usize,
    };
    set(bytes, setting, b"")
}

pub fn lp586x_scene(bytes: &mut [u8], scene: &[u8]) -> u32
    ensures value { result ≡ (setting_call bytes.old Setting.Scene scene.now).answer }
    ensures bytes_after { bytes.new ≡ (setting_call bytes.old Setting.Scene scene.now).bytes }
{
    set(bytes, Setting::Scene, scene)
}

pub fn lp586x_power_lost(bytes: &mut [u8]) -> u32
    ensures value { result ≡ (power_lost_call bytes.old).answer }
    ensures bytes_after { bytes.new ≡ (power_lost_call bytes.old).bytes }
{
    if bytes.len() != RECORD_SIZE {
        return wrong_size();
    }
    match host::sound_answer(records::record(bytes)) {
        Ok(()) => {
            records::put_reset(bytes);
            0
        }
        Err(refusal) => map::refusal_number(refusal) as u32,
    }
}

pub fn lp586x_lock(bytes: &mut [u8]) -> u32
    ensures value { result ≡ (lock_call bytes.old).answer }
    ensures bytes_after { bytes.new ≡ (lock_call bytes.old).bytes }
{
    if bytes.len() != RECORD_SIZE {
        return wrong_size();
    }
    match host::lock_answer(records::record(bytes)) {
        Ok(()) => {
            records::put_marks(bytes, host::LOCKED);
            0
        }
        Err(refusal) => map::refusal_number(refusal) as u32,
    }
}

// ---- Lists of bus writes

pub fn lp586x_update(
    bytes: &mut [u8],
    buffer: &mut [u8],
    n: &mut u32,
    t: &mut u32,
    stored: &mut u32,
    needed: &mut u32,
) -> u32
    ensures value { result ≡ (update_call bytes.old buffer.old n.old t.old).answer }
    ensures bytes_after { bytes.new ≡ (update_call bytes.old buffer.old n.old t.old).bytes }
    ensures buffer_after { buffer.new ≡ (update_call bytes.old buffer.old n.old t.old).buffer }
    ensures n_after { n.new ≡ (update_call bytes.old buffer.old n.old t.old).n }
    ensures t_after { t.new ≡ (update_call bytes.old buffer.old n.old t.old).t }
    ensures stored_after { stored.new ≡ update_stores bytes.old buffer.old stored.old }
    ensures needed_after { needed.new ≡ update_needed bytes.old buffer.old needed.old }
{
    if bytes.len() != RECORD_SIZE {
        return wrong_size();
    }
    let r = records::record(bytes);
    let answer = update::update_parts(r, buffer);
    let header = r.header;
    let sent = update::store_sent(answer, header, &mut bytes[IMAGE..RECORD_SIZE], buffer);
    lists::put_update(answer, sent, n, t, stored, needed)
}

pub fn lp586x_reset(bytes: &mut [u8], buffer: &mut [u8], n: &mut u32, t: &mut u32) -> u32
    ensures value { result ≡ (reset_call bytes.old buffer.old n.old t.old).answer }
    ensures bytes_after { bytes.new ≡ (reset_call bytes.old buffer.old n.old t.old).bytes }
    ensures buffer_after { buffer.new ≡ (reset_call bytes.old buffer.old n.old t.old).buffer }
    ensures n_after { n.new ≡ (reset_call bytes.old buffer.old n.old t.old).n }
    ensures t_after { t.new ≡ (reset_call bytes.old buffer.old n.old t.old).t }
{
    if bytes.len() != RECORD_SIZE {
        return wrong_size();
    }
    let answer = update::reset_parts(records::record(bytes), buffer);
    if answer.is_ok() {
        records::put_reset(bytes);
    }
    lists::count(answer, n, t)
}

pub fn lp586x_clear(bytes: &[u8], buffer: &mut [u8], n: &mut u32, t: &mut u32) -> u32
    ensures value { result ≡ (clear_call bytes.now buffer.old n.old t.old).answer }
    ensures buffer_after { buffer.new ≡ (clear_call bytes.now buffer.old n.old t.old).buffer }
    ensures n_after { n.new ≡ (clear_call bytes.now buffer.old n.old t.old).n }
    ensures t_after { t.new ≡ (clear_call bytes.now buffer.old n.old t.old).t }
{
    if bytes.len() != RECORD_SIZE {
        return wrong_size();
    }
    let answer = update::clear_parts(records::record(bytes), buffer);
    lists::count(answer, n, t)
}

pub fn lp586x_round(
    bytes: &mut [u8],
    present: u32,
    limit: u32,
    buffer: &mut [u8],
    n: &mut u32,
    t: &mut u32,
) -> u32
    ensures value { result ≡ (round_call bytes.old present limit buffer.old n.old t.old).answer }
    ensures bytes_after { bytes.new ≡ (round_call bytes.old present limit buffer.old n.old t.old).bytes }
    ensures buffer_after { buffer.new ≡ (round_call bytes.old present limit buffer.old n.old t.old).buffer }
    ensures n_after { n.new ≡ (round_call bytes.old present limit buffer.old n.old t.old).n }
    ensures t_after { t.new ≡ (round_call bytes.old present limit buffer.old n.old t.old).t }
{
    if !rounding::sized(bytes, present) {
        return wrong_size();
    }
    let marks = rounds::present_by(present as usize);
    let answer = rounding::round(bytes, marks, limit as usize, buffer);
    lists::count(answer, n, t)
}

pub fn lp586x_transaction(list: &[u8], index: u32, offset: &mut u32, size: &mut u32) -> u32
    ensures value { result ≡ (transaction_call list.now index offset.old size.old).answer }
    ensures offset_after { offset.new ≡ (transaction_call list.now index offset.old size.old).offset }
    ensures size_after { size.new ≡ (transaction_call list.now index offset.old size.old).size }
{
    match burst::transaction(list, index as usize) {
        Ok(
            Place {
                offset: first,
                length: count,
            },
        ) => {
            *offset = first as u32;
            *size = count as u32;
            0
        }
        Err(PlaceError::BadSizes) => map::refusal_number(Refusal::ListSizes) as u32,
        Err(PlaceError::NoIndex) => map::refusal_number(Refusal::NoTransaction) as u32,
    }
}

// ---- Lamp faults

// The number of the answer, and the two answers about 064h.
fn agree(answer: Result<Agreement, Refusal>, opens: &mut u32, shorts: &mut u32) -> u32
    ensures value { result ≡ get_or (answer_numbers answer) 0 0 }
    ensures opens_after { opens.new ≡ get_or (answer_numbers answer) 1 opens.old }
    ensures shorts_after { shorts.new ≡ get_or (answer_numbers answer) 2 shorts.old }
{
    match answer {
        Ok(agrees) => {
            *opens = agrees.opens as u32;
            *shorts = agrees.shorts as u32;
            0
        }
        Err(refusal) => map::refusal_number(refusal) as u32,
    }
}

pub fn lp586x_faults(
    bytes: &[u8],
    given: &[u8],
    res: &mut [u8],
    opens: &mut u32,
    shorts: &mut u32,
) -> u32
    ensures value { result ≡ (faults_call bytes.now given.now res.old opens.old shorts.old).answer }
    ensures result_after { res.new ≡ (faults_call bytes.now given.now res.old opens.old shorts.old).result }
    ensures opens_after { opens.new ≡ (faults_call bytes.now given.now res.old opens.old shorts.old).opens }
    ensures shorts_after { shorts.new ≡ (faults_call bytes.now given.now res.old opens.old shorts.old).shorts }
{
    if bytes.len() != RECORD_SIZE {
        return wrong_size();
    }
    let answer = faults::faults_parts(records::record(bytes), given, res);
    agree(answer, opens, shorts)
}

// ---- The chip model

pub fn lp586x_chip_at_reset(bytes: &mut [u8], member: u32, bus: u32, pins: u32) -> u32
    ensures value { result ≡ (chip_at_reset_call bytes.old member bus pins).answer }
    ensures bytes_after { bytes.new ≡ (chip_at_reset_call bytes.old member bus pins).bytes }
{
    if bytes.len() != CHIP_SIZE {
        return wrong_size();
    }
    match map::open_answer(member as usize, bus as usize, pins as usize) {
        Ok(()) => {
            records::put_chip(bytes, member as usize, bus as usize, pins as usize);
            0
        }
        Err(refusal) => map::refusal_number(refusal) as u32,
    }
}

pub fn lp586x_chip_power_lost(bytes: &mut [u8]) -> u32
    ensures value { result ≡ (chip_power_lost_call bytes.old).answer }
    ensures bytes_after { bytes.new ≡ (chip_power_lost_call bytes.old).bytes }
{
    if bytes.len() != CHIP_SIZE {
        return wrong_size();
    }
    let member = bytes[0];
    chip::lose_power(member, &mut bytes[REGISTERS..CHIP_SIZE]);
    0
}

pub fn lp586x_chip_feed(bytes: &mut [u8], list: &[u8]) -> u32
    ensures value { result ≡ (chip_feed_call bytes.old list.now).answer }
    ensures bytes_after { bytes.new ≡ (chip_feed_call bytes.old list.now).bytes }
{
    if bytes.len() != CHIP_SIZE {
        return wrong_size();
    }
    let (member, bus, pins) = (bytes[0], bytes[1], bytes[2]);
    let answer = chip::feed_registers(member, bus, pins, &mut bytes[REGISTERS..CHIP_SIZE], list);
    map::answer_number(answer) as u32
}
