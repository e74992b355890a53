// A log whose journal a host writes.
ghost use Rattle.std.specs.Prelude.{◌≡◌, ◌≢◌, ◌≤◌, ◌<◌, ◌+◌, ◌^◌, ◌++◌, ◌∷◌, [], ℕ, Some, length, map, take, drop, is_ok, vec_len, vec_capacity, IfOk, IfErr};
ghost use Rattle.std.specs.Option.{option_map};
ghost use Rattle.pv_base.specs.Answer.{Answers};
ghost use Rattle.pv_disk.specs.declared.disk_error.LookError.TheVariants as look;
ghost use Rattle.pv_disk_model.specs.Size.{Contents, size_of};
ghost use Rattle.pv_format.specs.Journal.{framed, IsJournal, IsNotOurs};
ghost use Rattle.pv_journal.specs.Opening.{contents_in, place_in};
ghost use Rattle.pv_host.specs.HostLog.{HostState, IsSameBesideRoom, HasPlace, contents_of, least_write, next_write, with_asked, with_content, with_written};
ghost use Rattle.pv_host.specs.HostLaws.{host_model};
ghost use Rattle.pv_host.specs.HostWrites.{IsOpenedOn, write_of};

use crate::HostWrite;
use crate::waiting::Waiting;
use pv_base::{History, MAX_JOURNAL, MAX_LENGTH, MIN_JOURNAL};
use pv_disk::{Log, LogError, LookError, MemDisk};
use pv_journal::{armed_journals, look};
use pv_law_journal::one_journal;
use std::alloc::Global;
use std::marker::Model;
use std::mem::replace;

// An open gate.
const OPEN: [u8; 1] = [1];

/// A log whose journal is a file of the host.
///
/// The host asks for what to write ([`HostLog::ask`]), writes what [`HostLog::next_write`] says, syncs, and tells so by [`HostLog::written`]; and so on until there
/// is nothing to write. What it asks for is a group: all records that wait and have room, one at least. They are written together behind the closed gate of
/// what stands in the file, and that gate is opened by a write of its own, so at each moment the file is a journal. A record that is added meanwhile waits for the
/// next group.
///
/// The log counts an append as done. Its owner lets nothing out that rests on it before the host has written it.
///
/// It is read once at most, before anything is appended: a second reading, or a first one after an append, answers [`LogError::Failed`] and takes the log
/// down.
///
/// In memory it has what the host hasn't written, and what was in the file when the log was opened, up to the first reading or append.
#[derive(Drop)]
pub struct HostLog {
    /// The records that the host hasn't written: the group that it was asked to write, and those after it.
    waiting: Waiting,
    /// Whether the group stands in the file, and the gate before it is next.
    behind_gate: bool,
    /// How many records the group has.
    group: u64,
    /// How many records the host has told to be in the file.
    records: u64,
    /// The place of the gate after them.
    end: u64,
    /// How long the log is, in bytes.
    length: u64,
    /// How long it may become.
    limit: u64,
    /// What was in the file, until it is read or a record is added.
    unread: Option<Vec<Vec<u8>>>,
    /// Whether it was read when there was nothing left to read: each call then answers `Down`.
    down: bool,
    /// What was in the file.
    found: History<Vec<u8>>,
    /// What waited each time that the host had written a group, which was the first of it.
    stored: History<Waiting>,
}

impl Model for HostLog {
    ghost use Rattle.pv_host.specs.HostLog.{HostState};
    ghost use Rattle.pv_host.specs.HostView.{log_of, IsHostLog};

    ghost Value = { HostState };

    ghost view = { log_of };

    ghost invariant = { IsHostLog };
}

impl HostLog {
    /// The log on a file of the host that holds these bytes. It may become `limit` bytes long, from 32 to 4,294,967,296; one that is longer already is
    /// opened too, and takes no more records. Takes time in proportion to the bytes.
    ///
    /// Before the host reads the bytes it syncs the file, and for a new one its entry in the folder: a crash of its process alone may leave bytes that are
    /// written and not synced, and the log counts all that it finds as stored.
    ///
    /// - [`LookError::NotOurs`]: the bytes are no journal, which shows at that place.
    /// - [`LookError::NoMemory`]: there was no memory.
    /// - [`LookError::Failed`] doesn't come.
    #[tactic(auto, using(crate::proofs::HostLemmas::ends))]
    pub fn open(alloc: Global, bytes: Vec<u8>, limit: u64) -> Result<HostLog, LookError>
        requires least { MIN_JOURNAL ≤ limit }
        requires most { limit ≤ MAX_JOURNAL }
        ensures answer { Answers (λ contents. IsJournal contents bytes.items) (IsNotOurs bytes.items) (λ (log : HostState). log.stored) place_in result }
        ensures failed { IfErr result (λ error. error ≢ look.Failed) }
        ensures opened { IfOk result (IsOpenedOn bytes.items limit) }
        ensures bounded { IfOk result (λ log. size_of log.stored ≤ MAX_LENGTH) }
    {
        let contents = match journal_in(alloc, bytes) {
            Ok(contents) => contents,
            Err(error) => return Err(error),
        };
        let length = match length_of(&contents) {
            Some(length) => length,
            None => return Err(LookError::NoMemory),
        };
        Ok(HostLog {
            waiting: Waiting::new(alloc),
            behind_gate: false,
            group: 0,
            records: contents.len() as u64,
            end: length - 1,
            length,
            limit,
            found: found(&contents),
            unread: Some(contents),
            down: false,
            stored: History::new(),
        })
    }

    /// The host is to write a group of the records that wait: as many as have so much room, in bytes, and one at least. What it was asked to write before stays the
    /// group until it has told that it is written.
    #[tactic(auto, using(crate::proofs::HostLemmas::asks))]
    pub fn ask(&mut self, room: usize)
        ensures asks { self.new ≡ with_asked room self.old }
        ensures keeps { contents_of self.new ≡ contents_of self.old }
    {
        if !self.waiting.has_group() {
            self.group = self.waiting.ask(room);
        }
    }

    /// What the host is to write next of the group that it was asked to write, if there is one. It is the same until the host has told that it is done.
    #[tactic(auto, using(crate::proofs::HostLemmas::ends))]
    pub fn next_write(&self) -> Option<HostWrite<'_>>
        ensures { option_map write_of result ≡ next_write self.now }
    {
        if !self.waiting.has_group() {
            return None;
        }
        if self.behind_gate {
            return Some(HostWrite {
                place: self.end,
                bytes: &OPEN,
            });
        }
        Some(HostWrite {
            place: self.end + 1,
            bytes: self.waiting.group(),
        })
    }

    /// For how many bytes the host needs room at least to be told what to write next, if there is something to write or to ask for.
    #[tactic(auto, using(crate::proofs::HostLemmas::asks))]
    pub fn least_write(&self) -> Option<usize>
        ensures { result ≡ least_write self.now }
    {
        if self.behind_gate {
            return Some(OPEN.len());
        }
        if self.waiting.has_group() {
            return Some(self.waiting.group().len());
        }
        self.waiting.next_length()
    }

    /// The host has written that, and synced its file. Where it was asked to write nothing, nothing happens.
    #[tactic(auto, using(crate::proofs::HostLemmas::ends))]
    pub fn written(&mut self)
        ensures { IsSameBesideRoom (with_written self.old) self.new }
    {
        if !self.behind_gate {
            self.behind_gate = self.waiting.has_group();
            return;
        }
        self.behind_gate = false;
        self.records += self.group;
        self.group = 0;
        self.end += self.waiting.group().len() as u64;
        self.stored = self.stored.and(&self.waiting);
        self.waiting.drop_group();
    }

    /// How long the journal in the host's file is, up to and with its closed gate, by what the host has told.
    #[tactic(auto, using(crate::proofs::HostLemmas::ends))]
    pub fn stored(&self) -> u64
        ensures { result ≡ size_of self.now.stored }
    {
        self.end + 1
    }

    /// How many records the journal in the host's file has, by what the host has told. The cost is bounded by a constant.
    pub fn records(&self) -> u64
        ensures { result ≡ length self.now.stored }
    {
        self.records
    }
}

impl Log for HostLog {
    ghost model = { host_model };

    fn read_all(&mut self) -> Result<Vec<Vec<u8>>, LogError> {
        if self.down {
            return Err(LogError::Down);
        }
        match replace(&mut self.unread, None) {
            Some(all) => Ok(all),
            None => {
                self.down = true;
                Err(LogError::Failed)
            }
        }
    }

    fn reserve(&mut self, content: u64) -> Result<(), LogError> {
        if self.down {
            return Err(LogError::Down);
        }
        let length = self.length + (5 + content);
        if length > self.limit {
            return Err(LogError::Full(length));
        }
        self.waiting.reserve(content as usize)?;
        Ok(())
    }

    #[tactic(auto, using(crate::proofs::HostLemmas::appends))]
    fn append(&mut self, content: &[u8]) -> Result<(), LogError> {
        if self.down {
            return Err(LogError::Down);
        }
        self.push(content);
        Ok(())
    }

    fn length(&self) -> u64 {
        self.length
    }
}

impl HostLog {
    // Adds a content in the memory that was made for its record.
    #[tactic(auto, using(crate::proofs::HostLemmas::appends))]
    fn push(&mut self, content: &[u8])
        requires { HasPlace self.old (length content.now) }
        ensures becomes { IsSameBesideRoom (with_content self.old content.now) self.new }
        ensures short { length content.now < 2 ^ 32 }
    {
        self.unread = None;
        self.length += 5 + content.len() as u64;
        self.waiting.push(content);
    }
}

// The contents of the journal that the bytes are.
fn journal_in(alloc: Global, bytes: Vec<u8>) -> Result<Vec<Vec<u8>>, LookError>
    ensures answer { Answers (λ contents. IsJournal contents bytes.items) (IsNotOurs bytes.items) contents_in place_in result }
    ensures failed { IfErr result (λ error. error ≢ look.Failed) }
{
    one_journal();
    armed_journals();
    if bytes.len() as u64 > MAX_LENGTH {
        return Err(LookError::NoMemory);
    }
    let mut disk = MemDisk::of(alloc, bytes);
    look(alloc, &mut disk)
}

// How long a log with these contents is, unless no log is as long.
fn length_of(contents: &[Vec<u8>]) -> Option<u64>
    ensures { (length : ℕ) → result ≡ Some length → (length ≡ size_of (map (λ it. it.items) contents.now)) × (length ≤ MAX_LENGTH) }
{
    let mut length = 9;
    for content in contents {
        length += 5 + content.len() as u64;
        if length > MAX_LENGTH {
            return None;
        }
    }
    Some(length)
}

// The contents, as what was found.
fn found(contents: &[Vec<u8>]) -> History<Vec<u8>>
    ensures { result.items ≡ contents.now }
{
    let mut found = History::new();
    for content in contents {
        found = found.and(content);
    }
    found
}
