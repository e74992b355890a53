// The least pieces of lines, each put after what a buffer holds.
ghost use Rattle.std.specs.Prelude.{◌≡◌, ◌++◌, OnErr, OnOk};
ghost use Rattle.std.specs.Fmt.{signed_decimal};
ghost use Rattle.pv_protocol.specs.LineText.{numbered_text};
ghost use Rattle.pv_report.specs.StillHeld.{StillHeld};
ghost use Rattle.pv_transcript.specs.Begins.{Begins};

use itoa::Buffer;
use pv_base::{NoMemory, push_number};

/// Bytes as they stand.
pub(crate) fn push_bytes(text: &mut Vec<u8>, bytes: &[u8]) -> Result<(), NoMemory>
    ensures text { OnOk result (text.new.items ≡ text.old.items ++ bytes.now) }
    ensures unchanged { OnErr result (text.new.items ≡ text.old.items) }
{
    Ok(text.extend_from_slice(bytes)?)
}

/// A word, a space and a number.
#[tactic(auto, using(crate::proofs::HeldLemmas::beginnings))]
pub(crate) fn push_numbered(text: &mut Vec<u8>, word: &[u8], number: u64) -> Result<(), NoMemory>
    ensures text { OnOk result (text.new.items ≡ text.old.items ++ numbered_text word.now number) }
    ensures held { OnErr result (StillHeld text.old.items text.new.items) }
    ensures begun { OnErr result (Begins text.new.items (text.old.items ++ numbered_text word.now number)) }
{
    text.extend_from_slice(word)?;
    text.extend_from_slice(b" ")?;
    push_number(text, number)
}

/// A number in decimal, with its sign where it is negative.
pub(crate) fn push_signed(text: &mut Vec<u8>, number: i64) -> Result<(), NoMemory>
    ensures text { OnOk result (text.new.items ≡ text.old.items ++ signed_decimal number) }
    ensures unchanged { OnErr result (text.new.items ≡ text.old.items) }
{
    let mut digits = Buffer::new();
    Ok(text.extend_from_slice(digits.format(number).as_bytes())?)
}
