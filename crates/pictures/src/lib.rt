// A panel's lamps, faults and differences as text.
//
// The lamps and the faults of a panel are pictures: a line for each scan line of the member, a character for each of the sinks 0 to 17. The
// differences of a chip and its ledger are a list: a line for each register. LF stands between lines and none behind the last. Each
// function puts its text at a place of a buffer and answers the place behind it; what has no room is dropped.
#![tactic(auto)]

mod differences;
mod faults;
mod grid;
mod lamps;

ghost use Rattle.std.specs.Prelude.{◌≡◌, get_or};

pub use differences::put_differences;
pub use faults::put_faults;
pub use lamps::put_lamps;

// A byte, or another value behind the end.
fn byte_or(bytes: &[u8], at: usize, other: u8) -> u8
    ensures { result ≡ get_or bytes.now at other }
{
    bytes.get(at).copied().unwrap_or(other)
}
