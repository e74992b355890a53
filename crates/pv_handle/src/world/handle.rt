// A boxed world or none, whose fields name no type of the engine, so that C can hold it.
ghost use Rattle.std.specs.Prelude.{◌≡◌, Option, Some, None, IsSome};
ghost use Rattle.pv_embed_world.specs.declared.hosted_world.HostedWorld.{HostedWorld};
ghost use Rattle.pv_handle.specs.WorldHandle.{world_coded, handle_owns};

use crate::parts::Parts;
use pv_embed_world::HostedWorld;
use std::alloc::Global;
use std::marker::Model;

/// Where a world lies, if there is one. Letting it go frees nothing.
#[repr(C)]
#[derive(Drop)]
pub struct WorldHandle {
    at: *mut u8,
    alloc: Global,
    /// The world, if there is one.
    pub ghost world: { Option HostedWorld } by { world_coded },
}

impl Model for WorldHandle {
    ghost also_owns = { λ h. handle_owns h.alloc h.at h.world };
}

impl WorldHandle {
    /// No world.
    pub fn none(alloc: Global) -> WorldHandle
        ensures { result.world ≡ None }
    {
        WorldHandle {
            at: std::ptr::null_mut(),
            alloc,
        }
    }

    /// A handle to this world.
    pub fn of(world: Box<HostedWorld>) -> WorldHandle
        ensures { result.world ≡ Some world.value }
    {
        WorldHandle::of_parts(Parts::of(world))
    }

    /// The world, which has no handle any more.
    pub fn into_box(self) -> Box<HostedWorld>
        requires { IsSome self.world }
        ensures { self.world ≡ Some result.value }
    {
        self.into_parts().into_box()
    }

    fn of_parts(parts: Parts<HostedWorld, Global>) -> WorldHandle
        ensures { result.world ≡ Some parts.value }
    {
        let Parts { ptr, alloc } = parts;
        WorldHandle {
            at: ptr as *mut u8,
            alloc,
        }
    }

    fn into_parts(self) -> Parts<HostedWorld, Global>
        requires { IsSome self.world }
        ensures { self.world ≡ Some result.value }
    {
        let WorldHandle { at, alloc } = self;
        Parts {
            ptr: at as *mut HostedWorld,
            alloc,
        }
    }
}
