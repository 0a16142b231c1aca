// The register map of five LED-matrix drivers: LP5860, LP5861T, LP5864, LP5867 and LP5868T.
//
// A member is a code from 0 to 4. It has scan lines and a set of sinks, its register columns; a dot is a line and a sink
// that it has, and the dot's number is 18 x line + sink. An address is one of 908, 000h to 38Bh, each of one kind. The
// formulas of a dot's places, the reserved bits and the reset values follow from the kind and from the member's tables.
//
// Every function here takes any number that its types allow, a member above 4 and an address above 38Bh included.
#![tactic(auto)]

mod dots;
mod kinds;
mod members;
mod refusals;
mod registers;

pub use dots::{
    Dot, Field, Place, dot_in, dot_number, dot_of, is_dot, number_in, place_of, width_of,
};
pub use kinds::{Kind, kind_at, kind_in};
pub use members::{columns, first_masks, first_resets, lines, switch_bytes};
pub use refusals::{
    Answer, Numbers, Refusal, answer_number, answer_numbers, number_alone, open_answer,
    refusal_number, with_value, with_values,
};
pub use registers::{
    current_reset, group_mask, pwm_reserved, reserved, reserved_as, reset_as, reset_value,
    switch_mask, switch_reset, writable,
};
