// Laws on the spellings of records.
ghost use Rattle.std.specs.Prelude.{◌≡◌, ◌↔◌, ℕ, ◌*◌, ◌<◌, ◌≤◌, List, [], ◌++◌, length};
ghost use Rattle.pv_base.specs.Answer.{HasOneAnswer};
ghost use Rattle.pv_base.specs.BigEndian.{AreBytes};
ghost use Rattle.pv_format.specs.Contents.{SpellRecords, IsFirstBadContent};
ghost use Rattle.pv_format.specs.FirstFault.{RecordFault};
ghost use Rattle.pv_format.specs.Length as size;
ghost use Rattle.pv_format.specs.Range.{IsRecordInRange};
ghost use Rattle.pv_format.specs.Record.{Record};
ghost use Rattle.pv_format.specs.RecordSpelling.{IsReadAs, SpellsOldRecord, SpellsRecord};

/// A record has one spelling at most.
pub fn one_record_spelling()
    ensures { (entry : Record) (bytes others : List ℕ) → SpellsRecord entry bytes → SpellsRecord entry others → bytes ≡ others }
{}

/// A record has one old spelling at most.
pub fn one_old_spelling()
    ensures { (entry : Record) (bytes others : List ℕ) → SpellsOldRecord entry bytes → SpellsOldRecord entry others → bytes ≡ others }
{}

/// A record has a spelling exactly where its sites, items, numbers and counts are in range.
pub fn some_record_spelling()
    ensures { (entry : Record) → ((bytes : List ℕ) × SpellsRecord entry bytes) ↔ IsRecordInRange entry }
{}

/// What is read as a record is in range. So it has a spelling too.
pub fn read_records_are_in_range()
    ensures { (entry : Record) (bytes : List ℕ) → IsReadAs entry bytes → IsRecordInRange entry }
{}

/// Bytes are read as one record at most.
pub fn one_record()
    ensures { (entry other : Record) (bytes : List ℕ) → IsReadAs entry bytes → IsReadAs other bytes → entry ≡ other }
{}

/// What is read as a record isn't the beginning of more that is.
pub fn no_longer_record()
    ensures { (entry other : Record) (bytes rest : List ℕ) → IsReadAs entry bytes → IsReadAs other (bytes ++ rest) → rest ≡ [] }
{}

/// How many bytes spell a record.
pub fn record_length()
    ensures { (entry : Record) (bytes : List ℕ) → SpellsRecord entry bytes → length bytes ≡ size.record_length entry }
{}

/// A spelling of a record is an old one of none.
pub fn no_spelling_is_old()
    ensures { (entry other : Record) (bytes : List ℕ) → SpellsRecord entry bytes → SpellsOldRecord other bytes → ⊥ }
{}

/// A record's spelling isn't longer than its old one, which is less than eight times as long.
pub fn old_spellings_are_longer()
    ensures { (entry : Record) (bytes old : List ℕ) → SpellsRecord entry bytes → SpellsOldRecord entry old →
        (length bytes ≤ length old) × (length old < 8 * length bytes) }
{}

/// What is read as a record is at least as long as the record's spelling, and less than eight times as long.
pub fn read_records_are_longer()
    ensures { (entry : Record) (bytes : List ℕ) → IsReadAs entry bytes →
        (size.record_length entry ≤ length bytes) × (length bytes < 8 * size.record_length entry) }
{}

/// Bytes are read as exactly one record, or have exactly one first fault.
pub fn one_record_answer()
    ensures { (bytes : List ℕ) → AreBytes bytes → HasOneAnswer (λ entry. IsReadAs entry bytes) (RecordFault bytes) }
{}

/// Contents are read as exactly one list of records, or there is exactly one first content that is read as none.
pub fn one_replay_answer()
    ensures { (contents : List (List ℕ)) →
        HasOneAnswer (λ records. SpellRecords records contents) (IsFirstBadContent contents) }
{}
