// Laws on what an append makes of the bytes of a log in two areas. The functions here do nothing: each states a law.
ghost use Rattle.std.specs.Prelude.{◌<◌, ◌^◌, ◌+◌, ◌++◌, ◌∷◌, [], ℕ, List, length};
ghost use Rattle.pv_disk_model.specs.Disk.{Torn, overlaid};
ghost use Rattle.pv_disk_model.specs.Size.{Contents};
ghost use Rattle.pv_law_checkpoints.specs.Appending.{AreSameRoots, IsStaged, IsWithOrWithout, frame_of};
ghost use Rattle.pv_law_checkpoints.specs.TwoAreas.{IsLog, end_at};

/// A crash in the first write of an append, that of a frame behind the closed gate, leaves the log, and so does that write. Whatever is written there, both
/// roots read as before.
pub fn frames_keep_the_contents()
    ensures cut { (at : ℕ) (packed later : Contents) (bytes left : List ℕ) (count : ℕ) →
        IsLog at packed later bytes → Torn (end_at bytes at later + 1) count bytes left → IsLog at packed later left × AreSameRoots bytes left at }
    ensures made { (at : ℕ) (packed later : Contents) (bytes content : List ℕ) →
        IsLog at packed later bytes → length content < 2 ^ 32 →
        IsStaged at packed later content (overlaid bytes (end_at bytes at later + 1) (frame_of content))
        × AreSameRoots bytes (overlaid bytes (end_at bytes at later + 1) (frame_of content)) at }
{}

/// A crash in the second write, that of the gate before the frame, leaves the log or the one with one content more, and that write makes the latter. Both roots
/// read as before.
pub fn gates_add_the_content()
    ensures cut { (at : ℕ) (packed later : Contents) (content staged left : List ℕ) →
        IsStaged at packed later content staged → Torn (end_at staged at later) 1 staged left →
        IsWithOrWithout at packed later content left × AreSameRoots staged left at }
    ensures made { (at : ℕ) (packed later : Contents) (content staged : List ℕ) →
        IsStaged at packed later content staged →
        IsLog at packed (later ++ content ∷ []) (overlaid staged (end_at staged at later) (1 ∷ []))
        × AreSameRoots staged (overlaid staged (end_at staged at later) (1 ∷ [])) at }
{}
