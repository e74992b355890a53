// Sites and transactions, and how a transaction is printed.
ghost use Rattle.std.specs.Prelude.{◌≡◌, ◌++◌, length, take, IfOk, OnOk, OnErr};
ghost use Rattle.pv_base.specs.Txn.{txn_text};
ghost use Rattle.pv_base.specs.TxnWord.{word_of};

use crate::NoMemory;
use itoa::Buffer;
use std::alloc::Global;
use std::hash::{Hash, Hasher};

/// A site, numbered from 0. A database has 1 to 16.
#[derive(Clone, Copy, Debug, PartialEq, Eq, PartialOrd, Ord, Hash)]
pub struct SiteId(pub u8);

/// A transaction. Transactions are ordered by these three.
#[derive(Clone, Copy, Debug, PartialEq, Eq, PartialOrd, Ord)]
pub struct TxnId {
    /// The site that coordinates it.
    pub site: SiteId,
    /// That site's epoch: one more than the greatest that it had recorded when it started, and so at least 1.
    pub epoch: u32,
    /// The number that the site gave it in that epoch, from 0.
    pub number: u32,
}

// Transactions are looked up at each step, so that one is hashed as one word, and not part by part.
impl Hash for TxnId {
    ghost use Rattle.std.specs.Cmp.Rules.{hashing};
    ghost use Rattle.std.specs.Hash as fed;
    ghost use Rattle.std.proofs.Common.{rules};
    ghost use Rattle.pv_base.specs.TxnWord.{word_of};

    ghost hash_input = { λ txn. fed.u64 (word_of txn) };

    ghost respects_eq = { Prim.search (hashing, rules) };

    fn hash<H: Hasher>(&self, state: &mut H) {
        state.write_u64(word_of(*self));
    }
}

// A word that is the same for no two transactions of the first 2^24 epochs.
fn word_of(txn: TxnId) -> u64
    ensures { result ≡ word_of txn }
{
    let front = txn
        .epoch
        .wrapping_mul(256)
        .wrapping_add(u32::from(txn.site.0));
    u64::from(front) * 0x1_0000_0000 + u64::from(txn.number)
}

/// The transaction as `site.epoch.number`, as in `0.1.0`.
pub fn print_txn(alloc: Global, txn: TxnId) -> Result<Vec<u8>, NoMemory>
    ensures { IfOk result (λ text. text.items ≡ txn_text txn) }
{
    let mut text = Vec::new(alloc);
    push_txn(&mut text, txn)?;
    Ok(text)
}

/// Puts the transaction, as [`print_txn`] prints it, after what the buffer holds. After an error the buffer is as it was.
pub fn push_txn(text: &mut Vec<u8>, txn: TxnId) -> Result<(), NoMemory>
    ensures text { OnOk result (text.new.items ≡ text.old.items ++ txn_text txn) }
    ensures unchanged { OnErr result (text.new.items ≡ text.old.items) }
{
    let before = text.len();
    let pushed = push_parts(text, txn);
    if pushed.is_err() {
        text.truncate(before);
    }
    pushed
}

// Appends the transaction, or some of its bytes where the memory runs out.
fn push_parts(text: &mut Vec<u8>, txn: TxnId) -> Result<(), NoMemory>
    ensures text { OnOk result (text.new.items ≡ text.old.items ++ txn_text txn) }
    ensures kept { take (length text.old.items) text.new.items ≡ text.old.items }
{
    let mut digits = Buffer::new();
    text.extend_from_slice(digits.format(txn.site.0).as_bytes())?;
    text.extend_from_slice(b".")?;
    text.extend_from_slice(digits.format(txn.epoch).as_bytes())?;
    text.extend_from_slice(b".")?;
    text.extend_from_slice(digits.format(txn.number).as_bytes())?;
    Ok(())
}
