//! Calls for C: the same promises inside another program. Begin with `bs_check` and `bs_normal`. Each call ends with the status,
//! and for a refusal the reason, the bit and the input. The obligations of a C caller are in `capi/bitstream.h`.
//!
//! An export calls a function that returns an `Outcome`, and `Outcome::tell` makes the status and the fault of it. Below it one
//! function checks the limits and names, one calls the crates below on a `SliceSource` (for events on a `BytesSource`), and one hands
//! out the result. Each has one relation in `specs/`. Only numbers, `bool`, slices and `repr(C)` structs cross the border.
//!
//! A handle owns a `Home`: the events of bytes, a text, the writer of a tree, or the pieces of an input. A `BsHandle` is a flag and
//! an `Inner`, a pointer whose type is erased. Its object is a ghost field tied to memory by `also_owns`. `Parts` takes a box
//! apart and makes it again. Five short functions of these two are proved statement by statement; all others move whole handles
//! (`take_out`, `handle_of`).
#![tactic(auto)]

mod analysing;
mod asking;
mod assembling;
mod checking;
mod comparing;
mod difference;
mod event;
mod feeding;
mod feeding_two;
mod handle;
mod holding;
mod home;
mod inner;
mod input_bytes;
mod keys;
mod left_out;
mod limits;
mod operand;
mod outcome;
mod parts;
mod reading;
mod reasons;
mod room;
mod room_sink;
mod taking;
mod telling;
#[cfg(test)]
mod tests;
mod texts;
mod took;

pub use analysing::{BsBlockRow, BsCodeRow, BsTally, bs_analyse};
pub use asking::{BsMagicBytes, bs_magic, bs_operands, bs_values};
pub use assembling::bs_assemble;
pub use checking::bs_check;
pub use comparing::{bs_first_difference, bs_same};
pub use difference::{BsDifference, BsOpenBlock, BsStanding, BsValueDifference};
pub use event::BsEvent;
pub use feeding::{
    bs_fed_analyse, bs_fed_check, bs_fed_normal, bs_fed_report, bs_fed_show, bs_feed,
};
pub use feeding_two::{bs_fed_first_difference, bs_fed_same};
pub use handle::BsHandle;
pub use holding::{bs_hold_normal, bs_hold_report, bs_hold_show, bs_text};
pub use keys::BsKeys;
pub use left_out::{BsLeftOut, BsRecordName};
pub use limits::{BsLimits, bs_usual_limits};
pub use operand::BsOperand;
pub use outcome::BsFault;
pub use reading::{bs_close, bs_fed_events, bs_next, bs_open};
pub use reasons::{bs_form_version, bs_reason_name, bs_version};
pub use taking::bs_take;
pub use telling::{
    bs_write_enter, bs_write_finish, bs_write_leave, bs_write_open, bs_write_record,
};
pub use texts::{bs_normal, bs_report, bs_show};
