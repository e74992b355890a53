// A list of contents that outlives its process, and what a crash at any moment leaves of it.
ghost use Rattle.std.specs.Prelude.{◌≡◌, ◌⊎◌, ℕ, ◌+◌, ◌<◌, ◌≤◌, ◌^◌, Bool, false, List, Option, Some, map, length, is_ok, IfOk};
ghost use Rattle.pv_disk_model.specs.Size.{Contents, size_of};
ghost use Rattle.pv_disk_model.specs.Calls.{read_all, reserve, append};
ghost use Rattle.pv_disk_model.specs.LogModel.{LogModel};
ghost use Rattle.pv_disk.specs.LogAnswers.{Reads, Reserves, Appends};

use crate::LogError;

/// A list of contents, each of some bytes, to which one is added at a time. What was added and answered with `Ok` outlives
/// every crash.
///
/// What a log holds may be known, which is for the proof alone: whether it is is fixed when the log is made. What is said of
/// its contents, and of those that a crash leaves, holds where they are known; all else holds of every log.
pub trait Log: Drop {
    /// The log as the clauses below see it: what it holds, what a crash may leave of it, and whether it can go on.
    ghost model: { LogModel Self };

    /// All that the log holds, the oldest first.
    ///
    /// - [`LogError::Failed`], [`LogError::Down`], [`LogError::NoMemory`]: as they say.
    /// - [`LogError::NotOurs`]: what was read isn't a log's. It never comes from a log whose contents are known.
    fn read_all(&mut self) -> Result<Vec<Vec<u8>>, LogError>
        requires { model.is_intact self.old }
        ensures contents { IfOk result (λ all. (held : Contents) → model.contents self.old ≡ Some held → map (λ it. it.items) all.items ≡ held) }
        ensures effect { Reads model self.old self.new result }
        ensures room { (content : ℕ) → model.has_room self.old content → model.has_room self.new content }
        ensures intact { model.is_intact self.new }
        ensures goes { model.goes self.old read_all (is_ok result) self.new };

    /// Makes room for one append of a content of so many bytes, in memory and on what the log stands on. Room that was made before stays,
    /// and the two aren't added up.
    ///
    /// - [`LogError::Full`]: exactly where the log would be longer than its limit.
    /// - [`LogError::Failed`], [`LogError::Down`], [`LogError::NoMemory`]: as they say.
    fn reserve(&mut self, content: u64) -> Result<(), LogError>
        requires intact { model.is_intact self.old }
        requires small { content < 2 ^ 63 }
        ensures effect { Reserves model self.old self.new content result }
        ensures room { (other : ℕ) → model.has_room self.old other → model.has_room self.new other }
        ensures intact { model.is_intact self.new }
        ensures goes { model.goes self.old (reserve content) (is_ok result) self.new };

    /// Adds a content, for which `reserve` made room. It wants no memory.
    ///
    /// At each moment of the call a crash leaves the contents from before, or these with the new one. After `Ok` every
    /// crash leaves the new one too.
    ///
    /// - [`LogError::Failed`]: the log holds the new content, or it doesn't, and is down. Its length is the old one, or that with the new
    ///   content; which of them says nothing of what it holds.
    /// - [`LogError::Down`]: as it says. There is no other error.
    fn append(&mut self, content: &[u8]) -> Result<(), LogError>
        requires intact { model.is_intact self.old }
        requires room { model.is_down self.old ≡ false → model.has_room self.old (length content.now) }
        ensures effect { Appends model self.old self.new content.now result }
        ensures intact { model.is_intact self.new }
        ensures goes { model.goes self.old (append content.now) (is_ok result) self.new };

    /// The log's length in bytes: 9, and for each record that was ever added 5 and its content.
    fn length(&self) -> u64
        ensures { result ≡ model.size self.now };
}
