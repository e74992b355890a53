// Requests with a tag of the host's, and the reports that carry it.
ghost use Rattle.std.specs.Prelude.{◌≡◌, None, IfSome};
ghost use Rattle.pv_handle.specs.Slot.{Calls};
ghost use Rattle.pv_handle.specs.Standing.{StandsReady};
ghost use Rattle.pv_handle.specs.Tagged.{SubmitsTagged, TakesTagged};
ghost use Rattle.pv_c.specs.Answer.{ReadAs};
ghost use Rattle.pv_c.specs.Causes.{memory_number, request_number};
ghost use Rattle.pv_c.specs.Faults.{AnswersAt, request_fault};

use crate::fault::Fault;
use crate::given_text::given;
use crate::numbers::{numbers_of_taken, status_of_request};
use crate::placing::request_fault_of;
use pv_handle::SiteSlot;
use std::alloc::Global;

/// A request with a tag; and it is said where it is refused.
#[unsafe(no_mangle)]
pub extern "C" fn polydb_site_submit_tagged(
    alloc: Global,
    site: &mut SiteSlot,
    text: &[u8],
    query: bool,
    tag: u64,
    fault: &mut Fault,
) -> u32
    ensures submits { AnswersAt request_number request_fault result fault.new
        (Calls (SubmitsTagged text.now query tag) site.old.handle.site site.new.handle.site) }
    ensures stands { IfSome site.new.handle.site StandsReady }
{
    let answer = site.submit(alloc, given(text), query, tag);
    *fault = request_fault_of(answer);
    status_of_request(answer)
}

/// The next thing that the site lets out, where it goes, and the tag of the request whose number it reports.
#[unsafe(no_mangle)]
pub extern "C" fn polydb_site_take_tagged(
    alloc: Global,
    site: &mut SiteSlot,
    out: &mut [u8],
    written: &mut usize,
    to: &mut u64,
    tag: &mut u64,
) -> u32
    ensures given { ReadAs memory_number (record { status = result; count = written.new; to = to.new })
        (Calls (TakesTagged out.old out.new tag.new) site.old.handle.site site.new.handle.site) }
    ensures unchanged { site.old.handle.site ≡ None → out.new ≡ out.old }
    ensures untagged { site.old.handle.site ≡ None → tag.new ≡ 0 }
    ensures stands { IfSome site.new.handle.site StandsReady }
{
    let answer = site.take(alloc, out, tag);
    let numbers = numbers_of_taken(answer);
    *written = numbers.count;
    *to = numbers.to;
    numbers.status
}
