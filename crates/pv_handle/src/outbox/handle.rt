// A boxed outbox or none, whose fields name no type of the engine, so that C can hold it.
ghost use Rattle.std.specs.Prelude.{◌≡◌, Option, Some, None, IsSome};
ghost use Rattle.pv_handle.specs.declared.outbox_bytes.ByteOutbox.{ByteOutbox};
ghost use Rattle.pv_handle.specs.OutboxHandle.{outbox_coded, handle_owns};

use crate::outbox_bytes::ByteOutbox;
use crate::parts::Parts;
use std::alloc::Global;
use std::marker::Model;

/// Where an outbox lies, if there is one. Letting it go frees nothing.
#[repr(C)]
#[derive(Drop)]
pub struct OutboxHandle {
    at: *mut u8,
    alloc: Global,
    /// The outbox, if there is one.
    pub ghost outbox: { Option ByteOutbox } by { outbox_coded },
}

impl Model for OutboxHandle {
    ghost also_owns = { λ h. handle_owns h.alloc h.at h.outbox };
}

impl OutboxHandle {
    /// No outbox.
    pub fn none(alloc: Global) -> OutboxHandle
        ensures { result.outbox ≡ None }
    {
        OutboxHandle {
            at: std::ptr::null_mut(),
            alloc,
        }
    }

    /// A handle to this outbox.
    pub fn of(outbox: Box<ByteOutbox>) -> OutboxHandle
        ensures { result.outbox ≡ Some outbox.value }
    {
        OutboxHandle::of_parts(Parts::of(outbox))
    }

    /// The outbox, which has no handle any more.
    pub fn into_box(self) -> Box<ByteOutbox>
        requires { IsSome self.outbox }
        ensures { self.outbox ≡ Some result.value }
    {
        self.into_parts().into_box()
    }

    fn of_parts(parts: Parts<ByteOutbox, Global>) -> OutboxHandle
        ensures { result.outbox ≡ Some parts.value }
    {
        let Parts { ptr, alloc } = parts;
        OutboxHandle {
            at: ptr as *mut u8,
            alloc,
        }
    }

    fn into_parts(self) -> Parts<ByteOutbox, Global>
        requires { IsSome self.outbox }
        ensures { self.outbox ≡ Some result.value }
    {
        let OutboxHandle { at, alloc } = self;
        Parts {
            ptr: at as *mut ByteOutbox,
            alloc,
        }
    }
}
