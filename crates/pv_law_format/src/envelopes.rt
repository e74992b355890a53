// Laws on the spellings of messages.
ghost use Rattle.std.specs.Prelude.{◌≡◌, ◌↔◌, ℕ, List, [], ◌++◌, length};
ghost use Rattle.pv_base.specs.Answer.{HasOneAnswer};
ghost use Rattle.pv_base.specs.BigEndian.{AreBytes};
ghost use Rattle.pv_format.specs.FirstFault.{EnvelopeFault};
ghost use Rattle.pv_format.specs.Length as size;
ghost use Rattle.pv_format.specs.Message.{Envelope};
ghost use Rattle.pv_format.specs.MessageSpelling.{SpellsEnvelope};
ghost use Rattle.pv_format.specs.Range.{IsEnvelopeInRange};

/// A message has one spelling at most.
pub fn one_envelope_spelling()
    ensures { (envelope : Envelope) (bytes others : List ℕ) → SpellsEnvelope envelope bytes → SpellsEnvelope envelope others → bytes ≡ others }
{}

/// A message has a spelling exactly where its sites, items, numbers and counts are in range.
pub fn some_envelope_spelling()
    ensures { (envelope : Envelope) → ((bytes : List ℕ) × SpellsEnvelope envelope bytes) ↔ IsEnvelopeInRange envelope }
{}

/// Bytes spell one message at most.
pub fn one_envelope()
    ensures { (envelope other : Envelope) (bytes : List ℕ) → SpellsEnvelope envelope bytes → SpellsEnvelope other bytes → envelope ≡ other }
{}

/// The spelling of a message isn't the beginning of a longer one.
pub fn no_longer_envelope()
    ensures { (envelope other : Envelope) (bytes rest : List ℕ) → SpellsEnvelope envelope bytes → SpellsEnvelope other (bytes ++ rest) → rest ≡ [] }
{}

/// How many bytes spell a message.
pub fn envelope_length()
    ensures { (envelope : Envelope) (bytes : List ℕ) → SpellsEnvelope envelope bytes → length bytes ≡ size.envelope_length envelope }
{}

/// Bytes spell exactly one message, or have exactly one first fault.
pub fn one_envelope_answer()
    ensures { (bytes : List ℕ) → AreBytes bytes → HasOneAnswer (λ envelope. SpellsEnvelope envelope bytes) (EnvelopeFault bytes) }
{}
