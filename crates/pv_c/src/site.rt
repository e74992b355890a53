// The calls on a slot of a site.
ghost use Rattle.std.specs.Prelude.{◌≡◌, ℕ, None, IfSome};
ghost use Rattle.pv_protocol.specs.State as model;
ghost use Rattle.pv_embed.specs.Hosted.{Gives};
ghost use Rattle.pv_embed.specs.Requests.{ReceivesBy};
ghost use Rattle.pv_handle.specs.ByteSite.{AcceptsWrite, ReadsBytes, TakesWrite};
ghost use Rattle.pv_handle.specs.ByteState.{OnSite, OpensBytes};
ghost use Rattle.pv_handle.specs.Slot.{Opens, Calls, Asks};
ghost use Rattle.pv_handle.specs.Standing.{StandsReady};
ghost use Rattle.pv_handle.specs.Tagged.{SubmitsTagged, TakesTagged};
ghost use Rattle.pv_c.specs.Answer.{Answers, GivenAs, ReadAs};
ghost use Rattle.pv_c.specs.Causes.{memory_number, message_number, opening_number, request_number, value_number, write_number};

use crate::given_text::given;
use crate::numbers::{
    numbers_of_asked, numbers_of_taken, numbers_of_value, status_of_message, status_of_opening,
    status_of_request, status_of_tick, status_of_write,
};
use pv_handle::SiteSlot;
use std::alloc::Global;

/// Opens a closed slot with a site that goes on from a journal.
#[unsafe(no_mangle)]
pub extern "C" fn polydb_site_open(
    alloc: Global,
    site: &mut SiteSlot,
    config: &[u8],
    me: u8,
    journal: &[u8],
) -> u32
    ensures opens { Answers opening_number result (Opens (OpensBytes config.now me journal.now) site.old.handle.site site.new.handle.site) }
    ensures stands { site.old.handle.site ≡ None → IfSome site.new.handle.site StandsReady }
{
    status_of_opening(site.open(alloc, given(config), me, given(journal)))
}

/// A request without a tag.
#[unsafe(no_mangle)]
pub extern "C" fn polydb_site_submit(
    alloc: Global,
    site: &mut SiteSlot,
    text: &[u8],
    query: bool,
) -> u32
    ensures submits { Answers request_number result (Calls (SubmitsTagged text.now query 0) site.old.handle.site site.new.handle.site) }
    ensures stands { IfSome site.new.handle.site StandsReady }
{
    status_of_request(site.submit(alloc, given(text), query, 0))
}

/// A message comes.
#[unsafe(no_mangle)]
pub extern "C" fn polydb_site_receive(alloc: Global, site: &mut SiteSlot, message: &[u8]) -> u32
    ensures receives { Answers message_number result (Calls (OnSite (λ old new. ReceivesBy old new message.now)) site.old.handle.site site.new.handle.site) }
    ensures stands { IfSome site.new.handle.site StandsReady }
{
    status_of_message(site.receive(alloc, given(message)))
}

/// Time has passed.
#[unsafe(no_mangle)]
pub extern "C" fn polydb_site_tick(alloc: Global, site: &mut SiteSlot) -> u32
    ensures ticks { Answers memory_number result (Calls (OnSite (λ old new. Gives old new model.tick)) site.old.handle.site site.new.handle.site) }
    ensures stands { IfSome site.new.handle.site StandsReady }
{
    status_of_tick(site.tick(alloc))
}

/// What the host is to write next into its file, and where.
#[unsafe(no_mangle)]
pub extern "C" fn polydb_site_take_journal(
    alloc: Global,
    site: &mut SiteSlot,
    out: &mut [u8],
    written: &mut usize,
    place: &mut u64,
) -> u32
    ensures given { GivenAs (record { status = result; count = written.new; to = place.new })
        (Asks (TakesWrite out.old out.new) site.old.handle.site site.new.handle.site) }
    ensures unchanged { site.old.handle.site ≡ None → out.new ≡ out.old }
    ensures stands { IfSome site.new.handle.site StandsReady }
{
    let answer = site.next_write(alloc, out);
    let numbers = numbers_of_asked(answer);
    *written = numbers.count;
    *place = numbers.to;
    numbers.status
}

/// The host has written so many bytes at this place, and synced its file.
#[unsafe(no_mangle)]
pub extern "C" fn polydb_site_journal_synced(
    alloc: Global,
    site: &mut SiteSlot,
    place: u64,
    written: usize,
) -> u32
    ensures accepts { Answers write_number result (Calls (AcceptsWrite place written) site.old.handle.site site.new.handle.site) }
    ensures stands { IfSome site.new.handle.site StandsReady }
{
    status_of_write(site.written(alloc, place, written))
}

/// The next thing that the site lets out, and where it goes.
#[unsafe(no_mangle)]
pub extern "C" fn polydb_site_take_message(
    alloc: Global,
    site: &mut SiteSlot,
    out: &mut [u8],
    written: &mut usize,
    to: &mut u64,
) -> u32
    ensures given { (tag : ℕ) × ReadAs memory_number (record { status = result; count = written.new; to = to.new })
        (Calls (TakesTagged out.old out.new tag) site.old.handle.site site.new.handle.site) }
    ensures unchanged { site.old.handle.site ≡ None → out.new ≡ out.old }
    ensures stands { IfSome site.new.handle.site StandsReady }
{
    let mut tag = 0;
    let answer = site.take(alloc, out, &mut tag);
    let numbers = numbers_of_taken(answer);
    *written = numbers.count;
    *to = numbers.to;
    numbers.status
}

/// What the site shows of an item, once all records are in the host's file.
#[unsafe(no_mangle)]
pub extern "C" fn polydb_site_read(
    alloc: Global,
    site: &mut SiteSlot,
    name: &[u8],
    out: &mut [u8],
    written: &mut usize,
) -> u32
    ensures read { ReadAs value_number (record { status = result; count = written.new; to = 0 })
        (Calls (λ old new answer. (new ≡ old) × ReadsBytes old.hosted name.now out.old out.new answer) site.old.handle.site site.new.handle.site) }
    ensures unchanged { site.old.handle.site ≡ None → out.new ≡ out.old }
{
    let answer = site.read(alloc, given(name), out);
    let numbers = numbers_of_value(answer);
    *written = numbers.count;
    numbers.status
}

/// Closes the slot and frees what it held.
#[unsafe(no_mangle)]
pub extern "C" fn polydb_site_close(alloc: Global, site: &mut SiteSlot)
    ensures { site.new.handle.site ≡ None }
{
    site.close(alloc);
}
