// How messages are numbered: in the order of the moments that sent them, and of their places there.
ghost use Rattle.std.specs.Prelude.{◌≡◌, ◌≤◌, ◌<◌, ◌+◌, ◌^◌, ◌∷◌, List, All, Contains, IfOk, length, map};
ghost use Rattle.pv_law_histories.specs.Merge.{AreInOrder, number_of};
ghost use Rattle.pv_merge.specs.Moments.{HasMoment, moment_of};
ghost use Rattle.pv_merge.specs.Numbers.{numbers_from};

use crate::moment::Moment;
use pv_base::{NoMemory, SiteId};
use std::alloc::Global;

/// For each moment the number of its first message. There are fewer than 2^28 moments.
pub(crate) fn numbers_of(alloc: Global, moments: &[Moment<'_>]) -> Result<Vec<u64>, NoMemory>
    requires { length moments.now ≤ 2 ^ 28 }
    ensures numbers { IfOk result (λ numbers. numbers.items ≡ numbers_from 0 (map moment_of moments.now)) }
    ensures small { IfOk result (λ numbers. All (λ number. number ≤ 2 ^ 60) numbers.items) }
{
    let mut numbers = Vec::new(alloc);
    let mut sent = 0;
    for moment in moments {
        numbers.push(sent)?;
        sent = after(sent, moment.entry.sends);
    }
    Ok(numbers)
}

// The number of the next message, where so many more are sent.
fn after(sent: u64, sends: u32) -> u64
    requires { sent ≤ 2 ^ 60 }
    ensures value { result ≡ sent + sends }
    ensures bound { result < sent + 2 ^ 32 }
{
    sent + u64::from(sends)
}

/// The number of the message at this place of what the site sent at this stamp. Takes time that is logarithmic in the moments.
pub(crate) fn number_of(
    moments: &[Moment<'_>],
    numbers: &[u64],
    site: SiteId,
    stamp: u64,
    place: u32,
) -> u64
    requires order { AreInOrder (map moment_of moments.now) }
    requires numbers { numbers.now ≡ numbers_from 0 (map moment_of moments.now) }
    requires small { All (λ number. number ≤ 2 ^ 60) numbers.now }
    requires there { HasMoment site.0 stamp (map moment_of moments.now) }
    ensures { result ≡ number_of (map moment_of moments.now) site.0 stamp place }
{
    let at = moments.partition_point(|moment| comes_before(moment, site, stamp));
    numbers[at] + u64::from(place)
}

// Whether the moment comes before those of this stamp and site.
fn comes_before(moment: &Moment<'_>, site: SiteId, stamp: u64) -> bool
    ensures { result ≡ Rattle.pv_merge.specs.Moments.is_earlier site.0 stamp (moment_of moment.now) }
{
    moment.entry.stamp < stamp || moment.entry.stamp == stamp && moment.site.0 < site.0
}
