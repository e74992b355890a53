// A boxed site or none, whose fields name no type of the engine, so that C can hold it.
ghost use Rattle.std.specs.Prelude.{◌≡◌, Option, Some, None, IsSome};
ghost use Rattle.pv_handle.specs.declared.bytes.ByteSite.{ByteSite};
ghost use Rattle.pv_handle.specs.SiteHandle.{site_coded, handle_owns};

use crate::bytes::ByteSite;
use crate::parts::Parts;
use std::alloc::Global;
use std::marker::Model;

/// Where a site lies, if there is one. Letting it go frees nothing.
#[repr(C)]
#[derive(Drop)]
pub struct SiteHandle {
    at: *mut u8,
    alloc: Global,
    /// The site, if there is one.
    pub ghost site: { Option ByteSite } by { site_coded },
}

impl Model for SiteHandle {
    ghost also_owns = { λ h. handle_owns h.alloc h.at h.site };
}

impl SiteHandle {
    /// No site.
    pub fn none(alloc: Global) -> SiteHandle
        ensures { result.site ≡ None }
    {
        SiteHandle {
            at: std::ptr::null_mut(),
            alloc,
        }
    }

    /// A handle to this site.
    pub fn of(site: Box<ByteSite>) -> SiteHandle
        ensures { result.site ≡ Some site.value }
    {
        SiteHandle::of_parts(Parts::of(site))
    }

    /// The site, which has no handle any more.
    pub fn into_box(self) -> Box<ByteSite>
        requires { IsSome self.site }
        ensures { self.site ≡ Some result.value }
    {
        self.into_parts().into_box()
    }

    fn of_parts(parts: Parts<ByteSite, Global>) -> SiteHandle
        ensures { result.site ≡ Some parts.value }
    {
        let Parts { ptr, alloc } = parts;
        SiteHandle {
            at: ptr as *mut u8,
            alloc,
        }
    }

    fn into_parts(self) -> Parts<ByteSite, Global>
        requires { IsSome self.site }
        ensures { self.site ≡ Some result.value }
    {
        let SiteHandle { at, alloc } = self;
        Parts {
            ptr: at as *mut ByteSite,
            alloc,
        }
    }
}
