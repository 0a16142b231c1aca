// Burst lists: what goes over the bus, in bytes.
//
// A list is n, the number of transactions, then t, their bytes together, two bytes each; then n lengths of two bytes; then the
// n transactions back to back. All sizes are low byte first. A transaction is two head bytes and one or more data bytes for
// rising addresses. I2C head: 100, two pin bits, address bits 9-8, 0 for write; then address bits 7-0. SPI head: address
// bits 9-2; then bits 1-0 at 7-6, bit 5 as 1 for write, rest 0.
//
// Every function here takes any bytes and any number that its types allow. Bus 0 is I2C; any other number is SPI.
#![tactic(auto)]

mod heads;
mod places;
mod sizes;

pub use heads::{head_address, head_first, head_second, head_writes};
pub use places::{Place, PlaceError, transaction};
pub use sizes::{Sizes, put_size, read_sizes, size_at};
