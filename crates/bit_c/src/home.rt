//! The object that a handle owns.

use crate::input_bytes::BytesSource;
use crate::operand::BsOperand;
use bit_events::PackedEvents;
use bit_fields::Fault;
use bit_norm::FormWriter;
use std::alloc::Global;

/// The events of bytes, their fault, and the operands of the event returned last.
#[derive(Drop)]
pub struct Reading {
    pub(crate) events: PackedEvents<BytesSource>,
    pub(crate) fault: Option<Fault>,
    pub(crate) operands: Vec<BsOperand>,
}

/// A held text, and the number of its first bytes that were taken.
#[derive(Drop)]
pub struct HeldText {
    pub(crate) text: Vec<u8>,
    pub(crate) taken: usize,
}

/// The object that a handle owns: events, a text, the writer of a tree, or the pieces of an input.
#[derive(Drop)]
pub enum Home {
    Reading(Reading),
    Text(HeldText),
    Writing(FormWriter),
    Input(Vec<u8>),
}

/// A text of no bytes.
pub(crate) fn no_text(alloc: Global) -> Home {
    Home::Text(HeldText {
        text: Vec::new(alloc),
        taken: 0,
    })
}
