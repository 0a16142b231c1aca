// The readings of the dots by their bits alone. `exists` is whether the member has the dot.
ghost use Rattle.std.specs.Prelude.{◌≡◌, cond, List, ℕ, ◌+◌, ◌*◌, ◌/◌, ◌%◌, ◌^◌, ◌<◌, ◌≤◌, ltb, length, get_or};
ghost use Rattle.map.specs.declared.dots.Field.TheVariants.{Open, Short};
ghost use Rattle.map.specs.Lists.{filled};
ghost use Rattle.faults.specs.Faults.{some_faulty};
ghost use Rattle.faults.specs.OldReadings.{bits_reading};
ghost use Rattle.faults.specs.Passes.{ReadTo};

// Where the open bytes and the short bytes begin, behind 064h.
const OPENS: usize = 0x065 - 0x064;

const SHORTS: usize = 0x086 - 0x064;

// How many dots of the member are open, and how many are short.
#[derive(Clone, Copy)]
pub(crate) struct Found {
    pub(crate) opens: u8,
    pub(crate) shorts: u8,
}

// A bit of a fault byte; 0 where the dot does not exist.
fn fault_bit(exists: bool, bytes: &[u8], at: usize, bit: usize) -> u8
    requires { (at < length bytes.now) × (bit < 8) }
    ensures { (result ≡ cond exists (get_or bytes.now at 0 / 2 ^ bit % 2) 0) × (result < 2) }
{
    if exists { (bytes[at] >> bit) % 2 } else { 0 }
}

// By the open bit and the short bit of a dot.
fn reading(exists: bool, opened: u8, shorted: u8) -> u8
    requires { (opened < 2) × (shorted < 2) }
    ensures { result ≡ cond exists (opened + 2 * shorted) 4 }
{
    if exists { opened + 2 * shorted } else { 4 }
}

// Stores the readings of one line behind those of the lines before it, and adds its faulty dots to those found there.
fn read_line(member: usize, bytes: &[u8], line: usize, mut found: Found, res: &mut [u8]) -> Found
    requires { (line < 11) × (length bytes.now ≡ 67) × (198 ≤ length res.old)
        × (found.opens ≤ 18 * line) × (found.shorts ≤ 18 * line) }
    ensures { (old : List ℕ) → ReadTo member bytes.now old res.old found.opens found.shorts (18 * line) →
        ReadTo member bytes.now old res.new result.opens result.shorts (18 * line + 18) }
{
    let lines = map::lines(member);
    let columns = map::columns(member);
    for sink in 0..18 {
        let exists = map::dot_in(lines, columns, line, sink);
        let at = 3 * line + sink / 8;
        let opened = fault_bit(exists, bytes, OPENS + at, sink % 8);
        let shorted = fault_bit(exists, bytes, SHORTS + at, sink % 8);
        res[18 * line + sink] = reading(exists, opened, shorted);
        found.opens += opened;
        found.shorts += shorted;
    }
    found
}

// Stores the reading by its bits of each dot at its number.
pub(crate) fn read_all(member: usize, bytes: &[u8], res: &mut [u8]) -> Found
    requires { (length bytes.now ≡ 67) × (198 ≤ length res.old) }
    ensures result_after { res.new ≡ filled (bits_reading member bytes.now) 0 198 res.old }
    ensures opens_value { (ltb 0 result.opens ≡ some_faulty Open member bytes.now) × (ltb 0 result.shorts ≡ some_faulty Short member bytes.now) }
{
    let mut found = Found {
        opens: 0,
        shorts: 0,
    };
    for line in 0..11 {
        found = read_line(member, bytes, line, found, res);
    }
    found
}
