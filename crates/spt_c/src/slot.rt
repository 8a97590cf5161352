// A pointer that owns what it points to, with the type hidden, because C takes no pointer to a `Vec`.
ghost use Rattle.std.specs.Prelude.{◌≡◌, IsSome, IsNone};
ghost use Rattle.std.specs.declared.option.Option.{Option};
ghost use Rattle.std.specs.declared.option.Option.TheVariants.{None, Some};
ghost use Rattle.std.specs.Coded.{coded_option};
ghost use Rattle.spt_c.specs.declared.shared.graph.SharedGraph.{SharedGraph};
ghost use Rattle.spt_c.specs.Owned.{slot_owns, shared_coded};

use crate::box_parts::BoxParts;
use crate::shared::SharedGraph;
use std::alloc::Global;
use std::marker::Model;
use std::ptr::null_mut;

/// A pointer to a box on the heap, or to nothing.
#[repr(C)]
pub struct Slot {
    at: *mut u8,
    pub ghost shared: { Option SharedGraph } by { coded_option shared_coded },
}

impl Model for Slot {
    ghost also_owns = { λ s. slot_owns s.at s.shared };
}

impl Slot {
    /// Returns a slot that holds nothing.
    pub fn none() -> Slot
        ensures { result.shared ≡ None }
    {
        Slot { at: null_mut() }
    }

    /// Returns a slot that holds this box.
    pub fn of(shared: Box<SharedGraph>) -> Slot
        ensures { result.shared ≡ Some shared.value }
    {
        Slot::of_parts(BoxParts::of(shared))
    }

    fn of_parts(parts: BoxParts<SharedGraph, Global>) -> Slot
        ensures { result.shared ≡ Some parts.value }
    {
        let BoxParts { ptr, alloc: _ } = parts;
        Slot { at: ptr as *mut u8 }
    }

    /// Returns the box.
    pub fn into_box(self, alloc: Global) -> Box<SharedGraph>
        requires { IsSome self.shared }
        ensures { self.shared ≡ Some result.value }
    {
        self.into_parts(alloc).into_box()
    }

    fn into_parts(self, alloc: Global) -> BoxParts<SharedGraph, Global>
        requires { IsSome self.shared }
        ensures { self.shared ≡ Some result.value }
    {
        let Slot { at } = self;
        BoxParts {
            ptr: at as *mut SharedGraph,
            alloc,
        }
    }

    /// Ends a slot that holds nothing.
    pub fn end(self)
        requires { IsNone self.shared }
    {
        let Slot { at: _ } = self;
    }
}

// Any thread may use and free what the slot points to.
unsafe impl Send for Slot {}
