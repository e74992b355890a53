// The lines of all requests of a client.
ghost use Rattle.std.specs.Prelude.{◌≡◌, ℕ, None, Some, IfNone, IfOk, IfSome, is_some, []};
ghost use Rattle.pv_history.specs.Entries.{stamps_of};
ghost use Rattle.pv_told.specs.Along as along;
ghost use Rattle.pv_told.specs.Along.{has_fault_since, line_among};
ghost use Rattle.pv_told.specs.Lines.{AreLinesOf, IsSaid};
ghost use Rattle.pv_told.specs.Words.{has_asker, printed, told_in};

use crate::along::told_along;
use crate::asker::{is_among, is_same};
use crate::fault::askers_before_a_fault;
use crate::line::{ClientLine, ClientWhat};
use crate::told::Told;
use crate::word::{Word, print};
use pv_base::{NoMemory, SiteId};
use pv_history::Entry;
use pv_mail::Asker;
use pv_script::Line;
use std::alloc::Global;

/// What a client hears of each of so many requests, in order, by the history of its site, whose box may be worn. It is the client at this place among the site's own.
///
/// It is for a history that is at its end, when each request has its line or was lost ([`has_line`] tells): a request that is under way, or was never asked, counts as lost for
/// want of memory.
///
/// Takes time in proportion to the history, to the transactions that came to an end times those that were begun and not decided then, and to the requests times the
/// lines that the history has for clients, and times the requests that stand before a fault.
pub fn lines_of_client(
    alloc: Global,
    site: SiteId,
    worn: bool,
    history: &[Entry],
    client: u32,
    requests: u32,
) -> Result<Vec<ClientLine>, NoMemory>
    ensures { IfOk result (λ lines. AreLinesOf site.0 worn (stamps_of history.now) client requests lines.items) }
{
    let told = told_along(alloc, history)?;
    let faulted = askers_before_a_fault(alloc, history)?;
    let mut lines = Vec::new(alloc);
    for request in 0..requests {
        let asker = Asker {
            client,
            number: request,
        };
        let what = what_of(alloc, site, worn, &told, &faulted, asker)?;
        lines.push(ClientLine { request, what })?;
    }
    Ok(lines)
}

/// Whether the history has a line for the request of this number of the client, or for its transaction; a fault since is no such line. Takes time in proportion to the history, and
/// to the transactions that came to an end times those that were begun and not decided then.
pub fn has_line(
    alloc: Global,
    history: &[Entry],
    client: u32,
    number: u32,
) -> Result<bool, NoMemory>
    ensures { (me : ℕ) → IfOk result (λ has. has ≡ is_some (line_among (record { client = client; number = number }) (along.told_along me [] (stamps_of history.now)))) }
{
    let told = told_along(alloc, history)?;
    Ok(word_of(&told, Asker { client, number }).is_some())
}

// What the client hears of the request, where this was told and these requests stand before a fault.
fn what_of(
    alloc: Global,
    site: SiteId,
    worn: bool,
    told: &[Told<'_>],
    faulted: &[Asker],
    asker: Asker,
) -> Result<ClientWhat, NoMemory>
    ensures { (history : _) → told_in site.0 told.now ≡ along.told_along site.0 [] history → has_asker asker faulted.now ≡ has_fault_since asker history →
        IfOk result (IsSaid site.0 worn history asker) }
{
    if let Some(word) = word_of(told, asker) {
        return Ok(ClientWhat::Line(print(alloc, site, word)?));
    }
    if is_among(asker, faulted) {
        return Ok(ClientWhat::Line(Line::Fault(site)));
    }
    if worn {
        return Ok(ClientWhat::Worn);
    }
    Ok(ClientWhat::NoMemory)
}

// What was told first of the request.
fn word_of<'a>(told: &[Told<'a>], asker: Asker) -> Option<Word<'a>>
    ensures some { IfSome result (λ word. (me : ℕ) → line_among asker (told_in me told.now) ≡ Some (printed me word)) }
    ensures none { IfNone result ((me : ℕ) → line_among asker (told_in me told.now) ≡ None) }
{
    for one in told {
        if is_same(one.asker, asker) {
            return Some(one.word);
        }
    }
    None
}
