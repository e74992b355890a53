// A log in memory, whose appends fail where that is asked for.
ghost use Rattle.std.specs.Prelude.{◌≡◌, ◌<◌, ◌≤◌, ◌+◌, ◌-◌, ◌^◌, ◌++◌, ◌∷◌, ℕ, Some, [], false, map, length, take, is_ok, IfOk, OnOk, IsTrue, vec_len, vec_capacity};
ghost use Rattle.pv_disk_model.specs.Size.{Contents, size_of};
ghost use Rattle.pv_disk_model.specs.Calls.{read_all, reserve, append};
ghost use Rattle.pv_disk.specs.LogAnswers.{Reads, Reserves, Appends};
ghost use Rattle.pv_disk.specs.ListLog.{ListState, planned, contents_after, AppendsToList, IsSameBesideRoom, HasPlace, ListGoes, WasHeld};
ghost use Rattle.pv_disk.specs.ListLaws.{list_model};

use crate::{Log, LogError};
use pv_base::{MAX_JOURNAL, MIN_JOURNAL, NoMemory};
use std::alloc::Global;
use std::marker::Model;
use std::mem::replace;

/// That an append of a [`ListLog`] fails.
#[derive(Clone, Copy, Debug, PartialEq, Eq)]
pub struct AppendFail {
    /// The number of the append, from 0. Appends that were answered with `Down` aren't counted.
    pub number: u64,
    /// Whether the log then holds its content.
    pub kept: bool,
}

/// A log in memory. What it holds is known. Its appends fail where that is asked for, as if a disk under it had failed.
#[derive(Debug, Drop)]
pub struct ListLog {
    /// What it holds.
    contents: Vec<Vec<u8>>,
    /// The length of what it holds, in bytes.
    length: u64,
    /// How long it may become, in bytes.
    limit: u64,
    /// Which appends fail. Of two entries with one number the first decides.
    fails: Vec<AppendFail>,
    /// How many appends there were, up to u64's greatest value.
    appends: u64,
    /// How many of them failed, up to u64's greatest value.
    faults: u64,
    /// Whether a call failed since the log was opened.
    down: bool,
    /// The memory of the next content, without any byte of it.
    next: Vec<u8>,
}

impl Model for ListLog {
    ghost use Rattle.std.specs.Prelude.{◌≡◌, ◌≤◌, ◌-◌, map, vec_len, vec_capacity};
    ghost use Rattle.pv_base.specs.declared.limits.TheConstants.{MAX_JOURNAL};
    ghost use Rattle.pv_disk_model.specs.Size.{size_of};
    ghost use Rattle.pv_disk.specs.ListLog.{ListState};

    ghost Value = { ListState };

    ghost view = { λ s. record {
      contents = map (λ it. it.items) s.contents.items;
      limit = s.limit;
      fails = s.fails.items;
      appends = s.appends;
      faults = s.faults;
      is_down = s.down;
      places = vec_capacity s.contents - vec_len s.contents;
      bytes = vec_capacity s.next;
    } };

    ghost invariant = { λ s. (s.length ≡ size_of (map (λ it. it.items) s.contents.items)) × (s.length ≤ s.limit) × (s.limit ≤ MAX_JOURNAL) × (vec_len s.next ≡ 0) };
}

impl ListLog {
    /// A log without contents that may become `limit` bytes long, from `MIN_JOURNAL` to `MAX_JOURNAL`, and fails at these appends.
    pub fn new(alloc: Global, limit: u64, fails: Vec<AppendFail>) -> Self
        requires least { MIN_JOURNAL ≤ limit }
        requires most { limit ≤ MAX_JOURNAL }
        ensures { result ≡ record { contents = []; limit = limit; fails = fails.items; appends = 0; faults = 0; is_down = false; places = 0; bytes = 0 } }
    {
        ListLog {
            contents: Vec::new(alloc),
            length: 9,
            limit,
            fails,
            appends: 0,
            faults: 0,
            down: false,
            next: Vec::new(alloc),
        }
    }

    /// The same log, no longer down. It has the same contents, plan and counts.
    pub fn reopen(self) -> Self
        ensures { result ≡ record self { is_down = false } }
    {
        let mut log = self;
        log.down = false;
        log
    }

    // Adds a content in the memory that was made for it.
    fn push(&mut self, content: &[u8])
        requires { HasPlace self.old (length content.now) }
        ensures { self.new ≡ record self.old { contents = self.old.contents ++ content.now ∷ []; places = self.new.places; bytes = self.new.bytes } }
    {
        let empty = Vec::new(*self.next.allocator());
        let mut kept = replace(&mut self.next, empty);
        kept.extend_from_slice(content).unwrap();
        self.contents.push_reserved(kept);
        self.length += 5 + content.len() as u64;
    }
}

impl Log for ListLog {
    ghost model = { list_model };

    fn read_all(&mut self) -> Result<Vec<Vec<u8>>, LogError> {
        if self.down {
            return Err(LogError::Down);
        }
        Ok(copies(*self.next.allocator(), &self.contents)?)
    }

    fn reserve(&mut self, content: u64) -> Result<(), LogError> {
        if self.down {
            return Err(LogError::Down);
        }
        let length = self.length + (5 + content);
        if length > self.limit {
            return Err(LogError::Full(length));
        }
        self.contents.reserve(1)?;
        self.next.reserve(content as usize)?;
        Ok(())
    }

    #[tactic(auto, using(crate::proofs::ListLemmas::list_appends))]
    fn append(&mut self, content: &[u8]) -> Result<(), LogError> {
        if self.down {
            return Err(LogError::Down);
        }
        let fail = failure_at(&self.fails, self.appends);
        self.appends = self.appends.saturating_add(1);
        let Some(fail) = fail else {
            self.push(content);
            return Ok(());
        };
        self.faults = self.faults.saturating_add(1);
        self.down = true;
        if fail.kept {
            self.push(content);
        }
        Err(LogError::Failed)
    }

    fn length(&self) -> u64 {
        self.length
    }
}

// What is planned for the append with this number.
fn failure_at(fails: &[AppendFail], number: u64) -> Option<AppendFail>
    ensures { result ≡ planned fails.now number }
{
    fails.iter().copied().find(|fail| fail.number == number)
}

// Copies of all these contents.
fn copies(alloc: Global, contents: &[Vec<u8>]) -> Result<Vec<Vec<u8>>, NoMemory>
    ensures { IfOk result (λ all. map (λ it. it.items) all.items ≡ map (λ it. it.items) contents.now) }
{
    let mut all = Vec::new(alloc);
    for content in contents {
        let copy = content.to_vec(alloc)?;
        all.push(copy)?;
    }
    Ok(all)
}
