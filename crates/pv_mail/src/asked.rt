// What clients asked for and isn't decided.
ghost use Rattle.std.specs.Prelude.{◌≡◌, ◌≤◌, length, vec_capacity};
ghost use Rattle.std.specs.List.{position_or_len};
ghost use Rattle.pv_base.specs.Assignment.{is_same_txn};
ghost use Rattle.pv_mail.specs.Answers.{asker_in, without};

use pv_base::TxnId;

/// A client, by its place among its site's own, and the number of a request of it.
#[derive(Clone, Copy, Debug, PartialEq, Eq)]
pub struct Asker {
    /// The place of the client.
    pub client: u32,
    /// The number of the request.
    pub number: u32,
}

/// A transaction that was begun and isn't decided, and who asked for it.
#[derive(Clone, Copy, Debug, PartialEq, Eq)]
pub struct Begun {
    /// The transaction.
    pub txn: TxnId,
    /// Who asked for it.
    pub asker: Asker,
}

/// Who asked for the transaction, which is decided now. Takes time in proportion to what is begun.
pub fn take_asker(begun: &mut Vec<Begun>, txn: TxnId) -> Option<Asker>
    ensures asker { result ≡ asker_in begun.old.items txn }
    ensures begun { begun.new.items ≡ without begun.old.items txn }
    ensures room { (vec_capacity begun.new ≡ vec_capacity begun.old) × (length begun.new.items ≤ length begun.old.items) }
{
    let place = place_of(begun, txn);
    if place == begun.len() {
        return None;
    }
    Some(begun.remove(place).asker)
}

// The place of the transaction, or how many are begun.
fn place_of(begun: &[Begun], txn: TxnId) -> usize
    ensures { result ≡ position_or_len (λ other. is_same_txn other.txn txn) begun.now }
{
    begun
        .iter()
        .position(|other| is_of(*other, txn))
        .unwrap_or(begun.len())
}

// Whether this is begun with the transaction.
fn is_of(begun: Begun, txn: TxnId) -> bool
    ensures { result ≡ is_same_txn begun.txn txn }
{
    begun.txn == txn
}
