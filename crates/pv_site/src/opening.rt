// What a site that is opened reads of its log, and why it isn't opened.
ghost use Rattle.std.specs.Prelude.{◌≡◌, ◌+◌, ◌-◌, ◌^◌, ◌≤◌, ◌++◌, min, length, false, All, List};
ghost use Rattle.pv_format.specs.Contents.{AreWritten, SpellRecords};
ghost use Rattle.pv_format.specs.Range.{IsRecordInRange};
ghost use Rattle.pv_format.specs.Record.{Record};
ghost use Rattle.pv_disk_model.specs.Size.{Contents, size_of};
ghost use Rattle.pv_protocol.specs.Records.{journal_bytes};
ghost use Rattle.pv_protocol.specs.Sound.{IsSetupInRange};
ghost use Rattle.pv_replay.specs.Values.{contents_of};
ghost use Rattle.pv_site.specs.Opens.{Loads, ReadsPast, refused_with, unopened};
ghost use Rattle.pv_site.specs.SiteState.{setup_of};

use crate::surplus::Surplus;
use crate::{OpenError, Recovered, ResumeError};
use pv_base::{Catalog, SiteId};
use pv_disk::{Log, LogError};
use pv_replay::{Past, ReplayError, replay};
use pv_store::StoreError;
use std::alloc::Global;

// Why a site isn't opened, as `OpenError` says, beside the log that comes back.
#[derive(Clone, Copy, Debug, PartialEq, Eq)]
pub(crate) enum Refusal {
    /// The log failed.
    Failed,
    /// The log would have this length.
    Full(u64),
    /// No epoch is left.
    EpochsSpent,
    /// The content with this index is no record.
    BadRecord(u64),
    /// A value would name so many outcomes.
    TooManyOutcomes(u32),
    /// What was read isn't the log's.
    NotOurs(u64),
    /// There was no memory.
    NoMemory,
}

impl Refusal {
    // The refusal, with which the log comes back.
    pub(crate) fn with<L: Log>(self, log: L) -> OpenError<L>
        ensures { result ≡ refused_with log self }
    {
        match self {
            Refusal::Failed => OpenError::Failed(log),
            Refusal::Full(length) => OpenError::Full(log, length),
            Refusal::EpochsSpent => OpenError::EpochsSpent(log),
            Refusal::BadRecord(index) => OpenError::BadRecord(log, index),
            Refusal::TooManyOutcomes(count) => OpenError::TooManyOutcomes(log, count),
            Refusal::NotOurs(place) => OpenError::NotOurs(log, place),
            Refusal::NoMemory => OpenError::NoMemory(log),
        }
    }
}

// What was read from a log.
#[derive(Drop)]
pub(crate) struct Found {
    /// The records, and the greatest epoch.
    pub(crate) past: Past,
    /// Whether there are none.
    pub(crate) first: bool,
    /// By how many bytes the log is longer than they make it, for the proof.
    pub(crate) surplus: Surplus,
}

// What the records of a log say.
#[derive(Drop)]
pub(crate) struct Loaded {
    /// What is left of the site.
    pub(crate) left: Recovered,
    /// Whether there are no records.
    pub(crate) first: bool,
}

// Reads the records of the log.
fn read_past<L: Log>(log: &mut L, alloc: Global) -> Result<Found, Refusal>
    requires intact { L.model.is_intact log.old }
    requires up { L.model.is_down log.old ≡ false }
    ensures read { ReadsPast L.model log.old log.new result }
    ensures intact { L.model.is_intact log.new }
{
    let contents = match log.read_all() {
        Ok(contents) => contents,
        Err(LogError::Failed) => return Err(Refusal::Failed),
        Err(LogError::NotOurs(place)) => return Err(Refusal::NotOurs(place)),
        Err(LogError::NoMemory) => return Err(Refusal::NoMemory),
        Err(LogError::Down) | Err(LogError::Full(_)) => unreachable!(),
    };
    let length = length_of(&contents);
    if length != log.length() {
        return Err(Refusal::NotOurs(length));
    }
    match replay(alloc, &contents) {
        Ok(past) => Ok(Found {
            surplus: Surplus::of(&contents, &past.records),
            first: contents.is_empty(),
            past,
        }),
        Err(ReplayError::BadRecord(index)) => Err(Refusal::BadRecord(index)),
        Err(ReplayError::NoMemory) => Err(Refusal::NoMemory),
    }
}

// How long a log with these contents is, or u64's greatest value where it is longer than that.
fn length_of(contents: &[Vec<u8>]) -> u64
    ensures { result ≡ min (size_of (contents_of contents.now)) (2 ^ 64 - 1) }
{
    let mut length = 9;
    for content in contents {
        length = longer(length, content);
    }
    length
}

// The length with one content more.
fn longer(before: u64, content: &[u8]) -> u64
    ensures { result ≡ min (before + (5 + length content.now)) (2 ^ 64 - 1) }
{
    before.saturating_add(5 + content.len() as u64)
}

// Reads the records of the log, and loads them.
pub(crate) fn load<L: Log>(
    log: &mut L,
    alloc: Global,
    site: SiteId,
    catalog: &Catalog,
) -> Result<Loaded, Refusal>
    requires intact { L.model.is_intact log.old }
    requires up { L.model.is_down log.old ≡ false }
    ensures loaded { Loads L.model log.old log.new site.0 catalog.now result }
    ensures intact { L.model.is_intact log.new }
{
    let Found {
        past,
        first,
        surplus,
    } = match read_past(log, alloc) {
        Ok(found) => found,
        Err(refusal) => return Err(refusal),
    };
    match Recovered::of_longer(alloc, site, catalog, &past, surplus) {
        Ok(left) => Ok(Loaded { left, first }),
        Err(StoreError::TooManyOutcomes(count)) => Err(Refusal::TooManyOutcomes(count)),
        Err(StoreError::NoMemory) => Err(Refusal::NoMemory),
    }
}

// Why the site isn't opened, where it doesn't go on from what was read.
pub(crate) fn unopened<L: Log>(error: ResumeError<L>) -> OpenError<L>
    ensures { result ≡ unopened error }
{
    match error {
        ResumeError::Failed(log, _) => OpenError::Failed(log),
        ResumeError::Full(log, _, length) => OpenError::Full(log, length),
        ResumeError::EpochsSpent(log, _) => OpenError::EpochsSpent(log),
        ResumeError::NoMemory(log, _) => OpenError::NoMemory(log),
    }
}

/// Shows that what a catalog declares is in range, which its own calls report. It computes nothing.
pub fn setup_is_in_range(catalog: &Catalog)
    ensures { IsSetupInRange (setup_of catalog.now) }
{
    catalog.sites();
    catalog.journal();
    catalog.len();
}

/// Shows of contents that are read as records: a log with them is at least as long as the records make it as they are written, a front of it isn't longer than that by more than
/// the whole, and the records are in range. Where each is
/// as it is written, the contents are read as them, and the log is exactly so long. It computes nothing.
pub fn logs_tell_of_records()
    ensures size { (records : List Record) (contents : Contents) → AreWritten records contents → size_of contents ≡ journal_bytes records }
    ensures read { (records : List Record) (contents : Contents) → AreWritten records contents → SpellRecords records contents }
    ensures least { (records : List Record) (contents : Contents) → SpellRecords records contents → journal_bytes records ≤ size_of contents }
    ensures front { (records others : List Record) (contents later : Contents) → SpellRecords others later →
        size_of contents + journal_bytes (records ++ others) ≤ size_of (contents ++ later) + journal_bytes records }
    ensures range { (records : List Record) (contents : Contents) → SpellRecords records contents → All IsRecordInRange records }
{}
