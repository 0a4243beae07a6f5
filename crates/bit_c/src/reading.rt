//! The calls of the reader of events.

ghost use Rattle.std.specs.Prelude.{◌≡◌, None};
ghost use Rattle.bit_c.specs.Ending.{EndsCall};
ghost use Rattle.bit_c.specs.Limiting.{Within, limits_told};
ghost use Rattle.bit_c.specs.Opened.{reading_of};
ghost use Rattle.bit_c.specs.Stepping.{BeginsFed, BeginsIn, BeginsReading, BeginsWithin, HoldsNoOther, KeepsOther, Nexts, NextsIn, OpensHandle, StepsReading};

use crate::event::{BsEvent, next_of};
use crate::handle::{BsHandle, handle_of, take_out};
use crate::home::{Home, Reading, no_text};
use crate::input_bytes::{Bytes, BytesSource};
use crate::limits::BsLimits;
use crate::outcome::{BsFault, Outcome};
use bit_events::PackedEvents;
use bit_fields::Limits;
use std::alloc::Global;
use std::mem;

/// Begins the events of bytes. If that fails, it returns the bytes.
fn begin(alloc: Global, bytes: Bytes, limits: Limits) -> Result<Reading, (Outcome, Bytes)>
    ensures { BeginsReading limits bytes result }
{
    match PackedEvents::start(alloc, BytesSource::new(bytes), limits) {
        Ok(events) => Ok(Reading {
            events,
            fault: None,
            operands: Vec::new(alloc),
        }),
        Err((fault, source)) => Err((Outcome::of(0, fault), source.into_bytes())),
    }
}

/// Begins the events of bytes in a closed handle.
fn open_at(alloc: Global, bytes: &'static [u8], limits: Limits, handle: &mut BsHandle) -> Outcome
    requires { handle.old.inner.home ≡ None }
    ensures opens { OpensHandle limits bytes.now (reading_of handle.new.inner.home) result }
    ensures no_other { HoldsNoOther handle.new.inner.home }
{
    let reading = match begin(alloc, Bytes::Lent(bytes), limits) {
        Ok(reading) => reading,
        Err((outcome, _)) => return outcome,
    };
    match Box::new(alloc, Home::Reading(reading)) {
        Ok(home) => {
            *handle = handle_of(home);
            Outcome::Done
        }
        Err(_) => Outcome::Memory,
    }
}

/// The same with limits that may be past their caps, and with a handle that may be open.
fn open_within(
    alloc: Global,
    bytes: &'static [u8],
    limits: &BsLimits,
    handle: &mut BsHandle,
) -> Outcome
    ensures opens { let l = limits_told limits.now in let new = reading_of handle.new.inner.home
        in Within l (new ≡ None) (OpensHandle l bytes.now new) result }
    ensures no_other { HoldsNoOther handle.new.inner.home }
{
    let _ = take_out(alloc, handle);
    match limits.to_limits() {
        Some(limits) => open_at(alloc, bytes, limits, handle),
        None => Outcome::Limits,
    }
}

/// Begins the events of bytes, which must stay unchanged until the handle is closed. An open handle is closed
/// first.
#[unsafe(no_mangle)]
pub extern "C" fn bs_open(
    alloc: Global,
    bytes: &'static [u8],
    limits: &BsLimits,
    handle: &mut BsHandle,
    fault: &mut BsFault,
) -> u32
    ensures opens { let l = limits_told limits.now in let new = reading_of handle.new.inner.home
        in EndsCall result fault.new (Within l (new ≡ None) (OpensHandle l bytes.now new)) }
    ensures no_other { HoldsNoOther handle.new.inner.home }
{
    open_within(alloc, bytes, limits, handle).tell(fault)
}

/// Replaces the input of a handle's object with its events.
fn begin_in(alloc: Global, home: &mut Home, limits: Limits) -> Outcome
    ensures { BeginsIn limits home.old home.new result }
{
    match mem::replace(home, no_text(alloc)) {
        Home::Input(bytes) => match begin(alloc, Bytes::Owned(bytes), limits) {
            Ok(reading) => {
                *home = Home::Reading(reading);
                Outcome::Done
            }
            Err((outcome, Bytes::Owned(bytes))) => {
                *home = Home::Input(bytes);
                outcome
            }
            // Owned bytes come back as owned ones.
            Err((outcome, Bytes::Lent(_))) => outcome,
        },
        other => {
            *home = other;
            Outcome::Closed
        }
    }
}

/// The same with limits that may be past their caps.
fn begin_within(alloc: Global, home: &mut Home, limits: &BsLimits) -> Outcome
    ensures { BeginsWithin (limits_told limits.now) home.old home.new result }
{
    let Some(limits) = limits.to_limits() else {
        return match home {
            Home::Input(_) => Outcome::Limits,
            Home::Reading(_) | Home::Text(_) | Home::Writing(_) => Outcome::Closed,
        };
    };
    begin_in(alloc, home, limits)
}

/// The same for a handle.
fn begin_of(alloc: Global, handle: &mut BsHandle, limits: &BsLimits) -> Outcome
    ensures { BeginsFed (limits_told limits.now) handle.old.inner.home handle.new.inner.home result }
{
    match take_out(alloc, handle) {
        Some(mut home) => {
            let outcome = begin_within(alloc, &mut home, limits);
            *handle = handle_of(home);
            outcome
        }
        None => open_within(alloc, &[], limits, handle),
    }
}

/// Begins the events of the input that a handle gathered. The handle then holds them instead of the input. If that fails, the input
/// stays.
#[unsafe(no_mangle)]
pub extern "C" fn bs_fed_events(
    alloc: Global,
    handle: &mut BsHandle,
    limits: &BsLimits,
    fault: &mut BsFault,
) -> u32
    ensures { EndsCall result fault.new
        (BeginsFed (limits_told limits.now) handle.old.inner.home handle.new.inner.home) }
{
    begin_of(alloc, handle, limits).tell(fault)
}

/// The next event of events, or their fault.
fn step(reading: &mut Reading, event: &mut BsEvent) -> Outcome
    ensures { StepsReading reading.old event.old reading.new event.new result }
{
    if let Some(fault) = reading.fault {
        return Outcome::of(0, fault);
    }
    match next_of(&mut reading.events, &mut reading.operands) {
        Ok(found) => {
            *event = found;
            Outcome::Done
        }
        Err(fault) => {
            reading.fault = Some(fault);
            Outcome::of(0, fault)
        }
    }
}

/// The next event of the object of a handle.
fn step_in(home: &mut Home, event: &mut BsEvent) -> Outcome
    ensures { NextsIn home.old event.old home.new event.new result }
{
    match home {
        Home::Reading(reading) => step(reading, event),
        Home::Text(_) | Home::Writing(_) | Home::Input(_) => Outcome::Closed,
    }
}

/// The next event of a handle.
fn step_of(alloc: Global, handle: &mut BsHandle, event: &mut BsEvent) -> Outcome
    ensures steps { Nexts (reading_of handle.old.inner.home) event.old
        (reading_of handle.new.inner.home) event.new result }
    ensures kept { KeepsOther handle.old.inner.home handle.new.inner.home }
{
    match take_out(alloc, handle) {
        Some(mut home) => {
            let outcome = step_in(&mut home, event);
            *handle = handle_of(home);
            outcome
        }
        None => Outcome::Closed,
    }
}

/// The next event. If no event remains, the event reports that the whole input is accepted. After a fault each call repeats it.
#[unsafe(no_mangle)]
pub extern "C" fn bs_next(
    alloc: Global,
    handle: &mut BsHandle,
    event: &mut BsEvent,
    fault: &mut BsFault,
) -> u32
    ensures steps { EndsCall result fault.new (Nexts (reading_of handle.old.inner.home) event.old
        (reading_of handle.new.inner.home) event.new) }
    ensures kept { KeepsOther handle.old.inner.home handle.new.inner.home }
{
    step_of(alloc, handle, event).tell(fault)
}

/// Closes a handle and frees its object. Closing a closed handle does nothing.
#[unsafe(no_mangle)]
pub extern "C" fn bs_close(alloc: Global, handle: &mut BsHandle)
    ensures { handle.new.inner.home ≡ None }
{
    let _ = take_out(alloc, handle);
}
