// What is true of logs whose journals hosts write. The functions do nothing: each states a law.
ghost use Rattle.std.specs.Prelude.{◌≡◌, ◌≤◌, ℕ, Bool, true, false, List, Some};
ghost use Rattle.pv_disk_model.specs.Calls.{LogCall, append, reserve};
ghost use Rattle.pv_disk_model.specs.Disk.{overlaid};
ghost use Rattle.pv_host.specs.HostFile.{HoldsStored, IsFile, IsStored, MayLeave};
ghost use Rattle.pv_host.specs.HostLog.{Fits, HostGoes, HostState, HostWrite, IsSameBesideRoom, contents_of, least_write, next_write, with_asked, with_written};
ghost use Rattle.pv_host.specs.HostWrites.{IsOpenedOn};

/// Of a host that writes what it is told, from a file on which the log was opened:
///
/// - That file is one that it may hold, and stays one through each call of the log, none of which stores anything, and where the host is asked to write, by which
///   the log holds what it held.
/// - Once it has written what comes next, its file is one that it may hold from then on.
/// - So is what a crash leaves of its file, at any moment of that write or between two.
/// - Each such file is a journal, of the contents that the host has told to be stored, or of these and all of the group that it was asked to write: so of the first
///   that the log holds.
pub fn files_are_journals()
    ensures opened { (log : HostState) (file : List ℕ) (limit : ℕ) → IsOpenedOn file limit log → IsFile log file }
    ensures called { (old new : HostState) (call : LogCall) (ok : Bool) (file : List ℕ) → HostGoes old call ok new → IsFile old file → IsFile new file }
    ensures stores { (old new : HostState) (call : LogCall) (ok : Bool) → HostGoes old call ok new → new.stored ≡ old.stored }
    ensures asked { (log : HostState) (room : ℕ) (file : List ℕ) → IsFile log file → IsFile (with_asked room log) file }
    ensures keeps { (log : HostState) (room : ℕ) → contents_of (with_asked room log) ≡ contents_of log }
    ensures written { (old new : HostState) (write : HostWrite) (file : List ℕ) → next_write old ≡ Some write → IsSameBesideRoom (with_written old) new → IsFile old file →
        IsFile new (overlaid file write.place write.bytes) }
    ensures crashed { (log : HostState) (file left : List ℕ) → IsFile log file → MayLeave log file left → IsFile log left }
    ensures journals { (log : HostState) (file : List ℕ) → IsFile log file → IsStored log file }
    ensures holds { (log : HostState) (file : List ℕ) → IsFile log file → HoldsStored log file }
{}

/// A log that isn't down stays up where room is made, and no append fails.
pub fn host_logs_never_fail()
    ensures appends { (old new : HostState) (content : List ℕ) (ok : Bool) → old.is_down ≡ false → HostGoes old (append content) ok new → (ok ≡ true) × (new.is_down ≡ false) }
    ensures reserves { (old new : HostState) (content : ℕ) (ok : Bool) → old.is_down ≡ false → HostGoes old (reserve content) ok new → new.is_down ≡ false }
{}

/// A host that has room for the least that can be written next, and asks to write what has room, is given something for which it has room.
pub fn groups_fit_their_room()
    ensures { (log : HostState) (room needed : ℕ) → least_write log ≡ Some needed → needed ≤ room → Fits room (next_write (with_asked room log)) }
{}
