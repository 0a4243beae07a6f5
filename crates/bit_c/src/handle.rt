//! Handles: what C holds for the events of bytes, for a text, for the writer of a tree, or for an input in pieces.

ghost use Rattle.std.specs.Prelude.{◌≡◌, Option, Some, None, MatchOption, is_some};
ghost use Rattle.bit_c.specs.Opened.{home_in};

use crate::home::Home;
use crate::inner::Inner;
use crate::parts::Parts;
use std::alloc::Global;
use std::{mem, ptr};

/// A handle of events, of a text, of a writer or of an input in pieces. If all bytes are zero it is closed.
#[repr(C)]
#[derive(Drop)]
pub struct BsHandle {
    live: bool,
    pub inner: Inner,
    ghost known: { is_some inner.home ≡ live },
}

/// A closed handle.
// The second part brings `Home` into the table of types.
pub(crate) fn closed_handle(alloc: Global) -> (BsHandle, Option<Box<Home>>)
    ensures { result.0.inner.home ≡ None }
{
    let at: *mut () = ptr::null_mut();
    let handle = BsHandle {
        live: false,
        inner: Inner::none(at, alloc),
    };
    (handle, None)
}

/// An open handle.
pub(crate) fn handle_of(home: Box<Home>) -> BsHandle
    ensures { result.inner.home ≡ Some home.value }
{
    let inner = Inner::some(Parts::of(home));
    BsHandle { live: true, inner }
}

/// The object of a handle.
fn home_of(handle: BsHandle) -> Option<Box<Home>>
    ensures { MatchOption result (handle.inner.home ≡ None)
        (λ home. handle.inner.home ≡ Some home.value) }
{
    let BsHandle { live, inner } = handle;
    if live {
        Some(inner.take().into_box())
    } else {
        None
    }
}

/// Takes out the object of a handle, and leaves the handle closed.
pub(crate) fn take_out(alloc: Global, handle: &mut BsHandle) -> Option<Box<Home>>
    ensures closed { handle.new.inner.home ≡ None }
    ensures told { MatchOption result (handle.old.inner.home ≡ None)
        (λ home. handle.old.inner.home ≡ Some home.value) }
{
    let (none, _) = closed_handle(alloc);
    home_of(mem::replace(handle, none))
}

/// Puts an object that was taken out back into its handle.
pub(crate) fn put_back(handle: &mut BsHandle, home: Option<Box<Home>>)
    requires { handle.old.inner.home ≡ None }
    ensures { handle.new.inner.home ≡ home_in home }
{
    if let Some(home) = home {
        *handle = handle_of(home);
    }
}
