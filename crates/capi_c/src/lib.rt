// The C interface as a static library, for include/lp586x.h: each function is that of the crate `capi`, with the same promises, under
// its name in C, where a slice is a pointer and a length.
#![tactic(auto)]

ghost use Rattle.std.specs.Prelude.{◌≡◌, []};
ghost use Rattle.capi.specs.Calls.{open_call, setting_call, power_lost_call, lock_call, update_call, update_stores, update_needed, reset_call, clear_call, round_call, transaction_call, faults_call, chip_at_reset_call, chip_power_lost_call, chip_feed_call};

use calls::Setting;

// ---- The record and its settings

#[unsafe(no_mangle)]
pub extern "C" fn lp586x_open(bytes: &mut [u8], member: u32, bus: u32, pins: u32) -> u32
    ensures value { result ≡ (open_call bytes.old member bus pins).answer }
    ensures bytes_after { bytes.new ≡ (open_call bytes.old member bus pins).bytes }
{
    capi::lp586x_open(bytes, member, bus, pins)
}

#[unsafe(no_mangle)]
pub extern "C" fn lp586x_register(bytes: &mut [u8], address: u32, value: u32) -> u32
    ensures value { result ≡ (setting_call bytes.old (Setting.Register address value) []).answer }
    ensures bytes_after { bytes.new ≡ (setting_call bytes.old (Setting.Register address value) []).bytes }
{
    capi::lp586x_register(bytes, address, value)
}

#[unsafe(no_mangle)]
pub extern "C" fn lp586x_lamp(bytes: &mut [u8], line: u32, sink: u32, level: u32) -> u32
    ensures value { result ≡ (setting_call bytes.old (Setting.Lamp line sink level) []).answer }
    ensures bytes_after { bytes.new ≡ (setting_call bytes.old (Setting.Lamp line sink level) []).bytes }
{
    capi::lp586x_lamp(bytes, line, sink, level)
}

#[unsafe(no_mangle)]
pub extern "C" fn lp586x_group(bytes: &mut [u8], line: u32, sink: u32, group: u32) -> u32
    ensures value { result ≡ (setting_call bytes.old (Setting.Group line sink group) []).answer }
    ensures bytes_after { bytes.new ≡ (setting_call bytes.old (Setting.Group line sink group) []).bytes }
{
    capi::lp586x_group(bytes, line, sink, group)
}

#[unsafe(no_mangle)]
pub extern "C" fn lp586x_switch(bytes: &mut [u8], line: u32, sink: u32, state: u32) -> u32
    ensures value { result ≡ (setting_call bytes.old (Setting.Switch line sink state) []).answer }
    ensures bytes_after { bytes.new ≡ (setting_call bytes.old (Setting.Switch line sink state) []).bytes }
{
    capi::lp586x_switch(bytes, line, sink, state)
}

#[unsafe(no_mangle)]
pub extern "C" fn lp586x_scene(bytes: &mut [u8], scene: &[u8]) -> u32
    ensures value { result ≡ (setting_call bytes.old Setting.Scene scene.now).answer }
    ensures bytes_after { bytes.new ≡ (setting_call bytes.old Setting.Scene scene.now).bytes }
{
    capi::lp586x_scene(bytes, scene)
}

#[unsafe(no_mangle)]
pub extern "C" fn lp586x_power_lost(bytes: &mut [u8]) -> u32
    ensures value { result ≡ (power_lost_call bytes.old).answer }
    ensures bytes_after { bytes.new ≡ (power_lost_call bytes.old).bytes }
{
    capi::lp586x_power_lost(bytes)
}

#[unsafe(no_mangle)]
pub extern "C" fn lp586x_lock(bytes: &mut [u8]) -> u32
    ensures value { result ≡ (lock_call bytes.old).answer }
    ensures bytes_after { bytes.new ≡ (lock_call bytes.old).bytes }
{
    capi::lp586x_lock(bytes)
}

// ---- Lists of bus writes

#[unsafe(no_mangle)]
pub extern "C" fn lp586x_update(
    bytes: &mut [u8],
    buffer: &mut [u8],
    n: &mut u32,
    t: &mut u32,
    stored: &mut u32,
    needed: &mut u32,
) -> u32
    ensures value { result ≡ (update_call bytes.old buffer.old n.old t.old).answer }
    ensures bytes_after { bytes.new ≡ (update_call bytes.old buffer.old n.old t.old).bytes }
    ensures buffer_after { buffer.new ≡ (update_call bytes.old buffer.old n.old t.old).buffer }
    ensures n_after { n.new ≡ (update_call bytes.old buffer.old n.old t.old).n }
    ensures t_after { t.new ≡ (update_call bytes.old buffer.old n.old t.old).t }
    ensures stored_after { stored.new ≡ update_stores bytes.old buffer.old stored.old }
    ensures needed_after { needed.new ≡ update_needed bytes.old buffer.old needed.old }
{
    capi::lp586x_update(bytes, buffer, n, t, stored, needed)
}

#[unsafe(no_mangle)]
pub extern "C" fn lp586x_reset(bytes: &mut [u8], buffer: &mut [u8], n: &mut u32, t: &mut u32) -> u32
    ensures value { result ≡ (reset_call bytes.old buffer.old n.old t.old).answer }
    ensures bytes_after { bytes.new ≡ (reset_call bytes.old buffer.old n.old t.old).bytes }
    ensures buffer_after { buffer.new ≡ (reset_call bytes.old buffer.old n.old t.old).buffer }
    ensures n_after { n.new ≡ (reset_call bytes.old buffer.old n.old t.old).n }
    ensures t_after { t.new ≡ (reset_call bytes.old buffer.old n.old t.old).t }
{
    capi::lp586x_reset(bytes, buffer, n, t)
}

#[unsafe(no_mangle)]
pub extern "C" fn lp586x_clear(bytes: &[u8], buffer: &mut [u8], n: &mut u32, t: &mut u32) -> u32
    ensures value { result ≡ (clear_call bytes.now buffer.old n.old t.old).answer }
    ensures buffer_after { buffer.new ≡ (clear_call bytes.now buffer.old n.old t.old).buffer }
    ensures n_after { n.new ≡ (clear_call bytes.now buffer.old n.old t.old).n }
    ensures t_after { t.new ≡ (clear_call bytes.now buffer.old n.old t.old).t }
{
    capi::lp586x_clear(bytes, buffer, n, t)
}

#[unsafe(no_mangle)]
pub extern "C" fn lp586x_round(
    bytes: &mut [u8],
    present: u32,
    limit: u32,
    buffer: &mut [u8],
    n: &mut u32,
    t: &mut u32,
) -> u32
    ensures value { result ≡ (round_call bytes.old present limit buffer.old n.old t.old).answer }
    ensures bytes_after { bytes.new ≡ (round_call bytes.old present limit buffer.old n.old t.old).bytes }
    ensures buffer_after { buffer.new ≡ (round_call bytes.old present limit buffer.old n.old t.old).buffer }
    ensures n_after { n.new ≡ (round_call bytes.old present limit buffer.old n.old t.old).n }
    ensures t_after { t.new ≡ (round_call bytes.old present limit buffer.old n.old t.old).t }
{
    capi::lp586x_round(bytes, present, limit, buffer, n, t)
}

#[unsafe(no_mangle)]
pub extern "C" fn lp586x_transaction(
    list: &[u8],
    index: u32,
    offset: &mut u32,
    size: &mut u32,
) -> u32
    ensures value { result ≡ (transaction_call list.now index offset.old size.old).answer }
    ensures offset_after { offset.new ≡ (transaction_call list.now index offset.old size.old).offset }
    ensures size_after { size.new ≡ (transaction_call list.now index offset.old size.old).size }
{
    capi::lp586x_transaction(list, index, offset, size)
}

// ---- Lamp faults

#[unsafe(no_mangle)]
pub extern "C" fn lp586x_faults(
    bytes: &[u8],
    given: &[u8],
    res: &mut [u8],
    opens: &mut u32,
    shorts: &mut u32,
) -> u32
    ensures value { result ≡ (faults_call bytes.now given.now res.old opens.old shorts.old).answer }
    ensures result_after { res.new ≡ (faults_call bytes.now given.now res.old opens.old shorts.old).result }
    ensures opens_after { opens.new ≡ (faults_call bytes.now given.now res.old opens.old shorts.old).opens }
    ensures shorts_after { shorts.new ≡ (faults_call bytes.now given.now res.old opens.old shorts.old).shorts }
{
    capi::lp586x_faults(bytes, given, res, opens, shorts)
}

// ---- The chip model

#[unsafe(no_mangle)]
pub extern "C" fn lp586x_chip_at_reset(bytes: &mut [u8], member: u32, bus: u32, pins: u32) -> u32
    ensures value { result ≡ (chip_at_reset_call bytes.old member bus pins).answer }
    ensures bytes_after { bytes.new ≡ (chip_at_reset_call bytes.old member bus pins).bytes }
{
    capi::lp586x_chip_at_reset(bytes, member, bus, pins)
}

#[unsafe(no_mangle)]
pub extern "C" fn lp586x_chip_power_lost(bytes: &mut [u8]) -> u32
    ensures value { result ≡ (chip_power_lost_call bytes.old).answer }
    ensures bytes_after { bytes.new ≡ (chip_power_lost_call bytes.old).bytes }
{
    capi::lp586x_chip_power_lost(bytes)
}

#[unsafe(no_mangle)]
pub extern "C" fn lp586x_chip_feed(bytes: &mut [u8], list: &[u8]) -> u32
    ensures value { result ≡ (chip_feed_call bytes.old list.now).answer }
    ensures bytes_after { bytes.new ≡ (chip_feed_call bytes.old list.now).bytes }
{
    capi::lp586x_chip_feed(bytes, list)
}
