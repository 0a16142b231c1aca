// The writes of a list: finding the next one, writing it, and storing what was written.
//
// The scan goes from one write of document 01's plan to the next: `next_write` looks for the next differing address and for the end of
// its write. The writer puts what it found where it belongs: n and t, a length, a transaction. `store_list` then takes the data bytes of
// a whole list into an image.
//
// Every function takes any bytes and any numbers. What lies behind an end is neither read nor stored. That a write is the plan's is
// promised where the two images differ only at addresses that may be written, as in a sound record.
#![tactic(auto)]

mod members;
mod scan;
mod storing;
mod writer;

pub use scan::{Count, Write, count_writes, may_write, next_write};
pub use storing::store_list;
pub use writer::{copy, put_header, put_length, put_transaction};
