// A scene: a count n of two bytes, n dot numbers of one byte, n levels of two bytes, all low byte first.
ghost use Rattle.std.specs.Prelude.{◌≡◌, ◌+◌, ◌*◌, ◌<◌, ◌≤◌, cond, length};
ghost use Rattle.map.specs.Lists.{all_from};
ghost use Rattle.host.specs.Record.{scene_word, scene_count, scene_sized, scene_has_dot, scene_fits, scene_answer, put_scene};

use crate::RecordRef;
use map::{Answer, Refusal};

fn word(bytes: &[u8], at: usize) -> usize
    requires { at + 1 < length bytes.now }
    ensures { (result ≡ scene_word bytes.now at) × (result < 65536) }
{
    (bytes[at] as usize) + 256 * (bytes[at + 1] as usize)
}

// Two bytes of a count, and three for each entry.
#[tactic(auto, unfolding(crate::specs::Record::scene_sized))]
fn sized(bytes: &[u8]) -> bool
    ensures { result ≡ scene_sized bytes.now }
{
    2 <= bytes.len() && bytes.len() == 2 + 3 * word(bytes, 0)
}

// Every one of n dot numbers names a dot of the member.
fn has_dots(member: usize, bytes: &[u8], n: usize) -> bool
    requires { 2 + n ≤ length bytes.now }
    ensures { result ≡ all_from (scene_has_dot member bytes.now) 0 n }
{
    let lines = map::lines(member);
    let columns = map::columns(member);
    for number in &bytes[2..2 + n] {
        if !map::number_in(lines, columns, *number as usize) {
            return false;
        }
    }
    true
}

// Every one of the n levels is at most `top`.
fn levels_fit(top: usize, bytes: &[u8], n: usize) -> bool
    requires { (n ≡ scene_count bytes.now) × (length bytes.now ≡ 2 + 3 * n) }
    ensures { result ≡ all_from (scene_fits top bytes.now) 0 n }
{
    for i in 0..n {
        if top < word(bytes, 2 + n + 2 * i) {
            return false;
        }
    }
    true
}

pub(crate) fn answer(r: RecordRef<'_>, bytes: &[u8]) -> Answer
    ensures { result ≡ scene_answer r.entry.header r.entry.settings.now bytes.now }
{
    if !sized(bytes) {
        return Err(Refusal::SceneLength);
    }
    let n = word(bytes, 0);
    if !has_dots(r.header.member as usize, bytes, n) {
        return Err(Refusal::NoDot);
    }
    if !levels_fit(dots::top_level(r.settings), bytes, n) {
        return Err(Refusal::Level);
    }
    Ok(())
}

// The entries in order, each as a lamp of its own. No level changes the data mode.
fn put_all(settings: &mut [u8], bytes: &[u8], n: usize)
    requires { (n ≡ scene_count bytes.now) × (length bytes.now ≡ 2 + 3 * n) }
    ensures { settings.new ≡ put_scene bytes.now settings.old n }
{
    let wide = dots::wide(settings);
    for entry in 0..n {
        let level = word(bytes, 2 + n + 2 * entry);
        dots::put_level_as(settings, wide, bytes[2 + entry], level);
    }
}

// A scene of the right length; any other puts nothing.
pub(crate) fn put(settings: &mut [u8], bytes: &[u8])
    ensures { settings.new ≡
        cond (scene_sized bytes.now) (put_scene bytes.now settings.old (scene_count bytes.now))
        settings.old }
{
    if sized(bytes) {
        put_all(settings, bytes, word(bytes, 0));
    }
}
