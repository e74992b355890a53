// Laws on the bytes of journals. The functions here do nothing: each states a law.
ghost use Rattle.std.specs.Prelude.{◌≡◌, ◌↔◌, ℕ, List, Some};
ghost use Rattle.pv_base.specs.Answer.{HasOneAnswer};
ghost use Rattle.pv_disk_model.specs.Size.{Contents};
ghost use Rattle.pv_format.specs.JournalContents.{contents_of};
ghost use Rattle.pv_format.specs.Journal.{IsJournal, IsNotOurs};

/// Bytes are a journal with exactly one list of contents, or show at exactly one place that they are none, and never both.
pub fn one_journal()
    ensures { (bytes : List ℕ) → HasOneAnswer (λ contents. IsJournal contents bytes) (IsNotOurs bytes) }
{}

/// Bytes read as these contents exactly where they are a journal with them.
pub fn contents_are_those_of_the_journal()
    ensures { (contents : Contents) (bytes : List ℕ) → (contents_of bytes ≡ Some contents) ↔ IsJournal contents bytes }
{}
