// A box whose type C does not see, or nothing.
ghost use Rattle.std.specs.Prelude.{◌≡◌, IsSome, Some, None};
ghost use Rattle.bit_c.specs.declared.home.Home.{Home as HomeTold};
ghost use Rattle.std.specs.declared.option.Option.{Option as Maybe};

use crate::home::Home;
use crate::parts::Parts;
use std::alloc::Global;
use std::marker::Model;

/// A box by its pointer, whose type C does not see, or nothing.
#[repr(C)]
#[derive(Drop)]
pub struct Inner {
    ptr: *mut (),
    alloc: Global,
    pub ghost home: { Maybe HomeTold },
}

impl Model for Inner {
    ghost use Rattle.bit_c.specs.Held.{held};

    ghost also_owns = { λ inner. held inner.alloc inner.ptr inner.home };
}

impl Inner {
    /// Nothing.
    pub(crate) fn none(ptr: *mut (), alloc: Global) -> Inner
        ensures { result.home ≡ None }
    {
        Inner { ptr, alloc }
    }

    /// A box.
    pub(crate) fn some(parts: Parts<Home, Global>) -> Inner
        ensures { result.home ≡ Some parts.value }
    {
        let Parts { ptr, alloc } = parts;
        Inner {
            ptr: ptr as *mut (),
            alloc,
        }
    }

    /// The box.
    pub(crate) fn take(self) -> Parts<Home, Global>
        requires { IsSome self.home }
        ensures { self.home ≡ Some result.value }
    {
        let Inner { ptr, alloc } = self;
        Parts {
            ptr: ptr as *mut Home,
            alloc,
        }
    }
}
