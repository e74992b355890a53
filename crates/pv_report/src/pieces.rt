// The least pieces of lines, each put after what a buffer holds. After an error the buffer still begins with what it held.
ghost use Rattle.std.specs.Prelude.{◌≡◌, ◌++◌, ◌<◌, length, OnOk};
ghost use Rattle.std.specs.Fmt.{signed_decimal};
ghost use Rattle.pv_base.specs.Txn.{txn_text};
ghost use Rattle.pv_protocol.specs.LineText.{name_of, numbered_text, spaced};
ghost use Rattle.pv_report.specs.StillHeld.{StillHeld};

use itoa::Buffer;
use pv_base::{Catalog, ItemId, NoMemory, TxnId, push_number, push_txn};

// Words as they stand.
pub(crate) fn push_words(text: &mut Vec<u8>, words: &[u8]) -> Result<(), NoMemory>
    ensures text { OnOk result (text.new.items ≡ text.old.items ++ words.now) }
    ensures held { StillHeld text.old.items text.new.items }
{
    Ok(text.extend_from_slice(words)?)
}

// A signed number in decimal.
pub(crate) fn push_signed(text: &mut Vec<u8>, number: i128) -> Result<(), NoMemory>
    ensures text { OnOk result (text.new.items ≡ text.old.items ++ signed_decimal number) }
    ensures held { StillHeld text.old.items text.new.items }
{
    let mut digits = Buffer::new();
    Ok(text.extend_from_slice(digits.format(number).as_bytes())?)
}

// A word, a space and a number.
pub(crate) fn push_numbered(text: &mut Vec<u8>, word: &[u8], number: u64) -> Result<(), NoMemory>
    ensures text { OnOk result (text.new.items ≡ text.old.items ++ numbered_text word.now number) }
    ensures held { StillHeld text.old.items text.new.items }
{
    text.extend_from_slice(word)?;
    text.extend_from_slice(b" ")?;
    push_number(text, number)
}

// The item's name.
pub(crate) fn push_name(text: &mut Vec<u8>, item: ItemId, catalog: &Catalog) -> Result<(), NoMemory>
    requires { item.0 < length catalog.now.items }
    ensures text { OnOk result (text.new.items ≡ text.old.items ++ name_of catalog.now item.0) }
    ensures held { StillHeld text.old.items text.new.items }
{
    Ok(text.extend_from_slice(catalog.name(item))?)
}

// Each transaction, with a space before it.
pub(crate) fn push_txns(text: &mut Vec<u8>, txns: &[TxnId]) -> Result<(), NoMemory>
    ensures text { OnOk result (text.new.items ≡ text.old.items ++ spaced txn_text txns.now) }
    ensures held { StillHeld text.old.items text.new.items }
{
    for txn in txns {
        text.extend_from_slice(b" ")?;
        push_txn(text, *txn)?;
    }
    Ok(())
}
