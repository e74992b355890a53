// An opening that takes memory for the journal, and not for what the host's file has behind it.
ghost use Rattle.std.specs.Prelude.{◌≡◌, ◌≤◌, length};
ghost use Rattle.pv_embed.specs.Opening.{OpensHosted};
ghost use Rattle.pv_handle.specs.Opening.{is_not_ours};

use pv_embed::{HostedSite, OpenFault};
use std::alloc::Global;

/// Opens a site on what the host's file holds, as [`HostedSite::open`] does. Of the bytes it takes memory for the journal alone.
#[tactic(auto, using(crate::proofs::OpeningLemmas::opens_longer))]
pub(crate) fn open_hosted(
    alloc: Global,
    config: &[u8],
    me: u8,
    file: &[u8],
) -> Result<HostedSite, OpenFault>
    ensures { OpensHosted config.now me file.now result }
{
    let (journal, _) = file.split_at(journal_length(file));
    let answer = open_copy(alloc, config, me, journal);
    if is_not_ours(&answer) {
        // The whole file says at which place it shows.
        return open_copy(alloc, config, me, file);
    }
    answer
}

// Whether an opening is refused because the bytes are no journal.
fn is_not_ours(answer: &Result<HostedSite, OpenFault>) -> bool
    ensures { result ≡ is_not_ours answer.now }
{
    matches!(answer, Err(OpenFault::NotOurs(_)))
}

// Opens a site on a copy of these bytes.
fn open_copy(alloc: Global, config: &[u8], me: u8, file: &[u8]) -> Result<HostedSite, OpenFault>
    ensures { OpensHosted config.now me file.now result }
{
    let Ok(copy) = Vec::from_slice(alloc, file) else {
        return Err(OpenFault::NoMemory);
    };
    HostedSite::open(alloc, config, me, copy)
}

// How long the journal is with which the file begins, up to its closed gate and with it: each record has a gate, a length of four bytes and its content. Where the
// file is no journal, the length is the file's.
fn journal_length(file: &[u8]) -> usize
    ensures { result ≤ length file.now }
{
    let mut place = 8;
    while place < file.len() {
        if file[place] != 1 {
            return place + 1;
        }
        let left = file.len() - place;
        if left < 5 {
            return file.len();
        }
        let size = u32::from_be_bytes([
            file[place + 1],
            file[place + 2],
            file[place + 3],
            file[place + 4],
        ]) as usize;
        if left - 5 < size {
            return file.len();
        }
        place += 5 + size;
    }
    file.len()
}
