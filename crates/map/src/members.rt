// What the members differ in: small constant tables, one entry or one row a member, in the order of the member codes.
ghost use Rattle.std.specs.Prelude.{◌≡◌, ◌≤◌, ◌<◌};
ghost use Rattle.map.specs.Map.{lines_of, columns_of, switch_bytes_of, first_masks, first_mask, first_resets, first_reset};

static LINES: [usize; 5] = [11, 1, 4, 7, 8];

// Bit s is set where the member has sink s.
static COLUMNS: [u32; 5] = [0x3FFFF, 0x3FFFF, 0x3FFFF, 0x30303, 0x3FFFF];

// How many switch bytes, from 043h on, the member's summary table lists. The LP5864 lists one more than its lines have.
static SWITCH_BYTES: [usize; 5] = [33, 3, 13, 21, 24];

// The reserved bits of 000h to 00Bh: the summary table of the LP5861T adds some.
const COMMON_MASKS: [u8; 12] = [
    0xFE, 0x80, 0xF0, 0x00, 0x00, 0x00, 0x00, 0x00, 0x00, 0x80, 0x80, 0x80,
];

const LP5861T_MASKS: [u8; 12] = [
    0xFE, 0xF8, 0xF9, 0x03, 0xF1, 0x00, 0x00, 0x00, 0x00, 0x80, 0x80, 0x80,
];

static MASKS: [[u8; 12]; 5] = [
    COMMON_MASKS,
    LP5861T_MASKS,
    COMMON_MASKS,
    COMMON_MASKS,
    COMMON_MASKS,
];

// The reset values of 000h to 00Bh: all five summary tables have the same.
const COMMON_RESETS: [u8; 12] = [
    0x00, 0x5E, 0x00, 0x00, 0x47, 0xFF, 0xFF, 0xFF, 0xFF, 0x40, 0x40, 0x40,
];

static RESETS: [[u8; 12]; 5] = [COMMON_RESETS; 5];

// The scan lines of a member; a code above 4 has none. (A member is a number and no enum: it comes from C, from a script or from a byte of
// a record, and every function here promises what it says of any number.)
#[tactic(auto, unfolding(crate::specs::Map::lines_of))]
pub fn lines(member: usize) -> usize
    ensures { (result ≡ lines_of member) × (result ≤ 11) }
{
    if member < 5 { LINES[member] } else { 0 }
}

// The column set of a member.
#[tactic(auto, unfolding(crate::specs::Map::columns_of))]
pub fn columns(member: usize) -> u32
    ensures { result ≡ columns_of member }
{
    if member < 5 { COLUMNS[member] } else { 0 }
}

#[tactic(auto, unfolding(crate::specs::Map::switch_bytes_of))]
pub fn switch_bytes(member: usize) -> usize
    ensures { result ≡ switch_bytes_of member }
{
    if member < 5 { SWITCH_BYTES[member] } else { 0 }
}

// The reserved bits of the first twelve registers, a row a member; a code above 4 has the common ones.
#[tactic(auto, unfolding(crate::specs::Map::first_masks))]
pub fn first_masks(member: usize) -> [u8; 12]
    ensures { result ≡ first_masks member }
{
    if member < 5 {
        MASKS[member]
    } else {
        COMMON_MASKS
    }
}

// The reset values of the first twelve registers, a row a member.
pub fn first_resets(member: usize) -> [u8; 12]
    ensures { result ≡ first_resets }
{
    if member < 5 {
        RESETS[member]
    } else {
        COMMON_RESETS
    }
}

// The reserved bits of one of them; all bits elsewhere.
#[tactic(auto, using(crate::proofs::Tables::masks_past), unfolding(crate::specs::Map::first_mask))]
pub(crate) fn first_mask(member: usize, address: usize) -> u8
    ensures { result ≡ first_mask member address }
{
    if member < 5 && address < 12 {
        first_masks(member)[address]
    } else {
        255
    }
}

#[tactic(auto, unfolding(crate::specs::Map::first_reset))]
pub(crate) fn first_reset(member: usize, address: usize) -> u8
    ensures { result ≡ first_reset member address }
{
    if member < 5 && address < 12 {
        first_resets(member)[address]
    } else {
        0
    }
}
