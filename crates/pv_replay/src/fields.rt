// The fields that messages and records have in common.
ghost use Rattle.std.specs.Prelude.{◌≡◌, ◌≢◌, ◌++◌, ◌∷◌, ◌<◌, ℕ, List, if◌then◌else◌, IfOk, IfErr, OnOk};
ghost use Rattle.std.specs.Io.{StartsWith};
ghost use Rattle.pv_base.specs.BigEndian.{big_endian};
ghost use Rattle.pv_format.specs.Layout.{site_layout, truth_layout, txn_layout};
ghost use Rattle.pv_format.specs.Spelling.{IsAllowed, IsSite, IsTruth, SpellsTxn, is_count_from, is_item_from};
ghost use Rattle.pv_fields.specs.Decoding.{Passes, PassesNumber, Stops, StopsNumber};
ghost use Rattle.pv_replay.specs.Faults.{fault_of};
ghost use Rattle.pv_replay.specs.Left.{HasGoneOn};

use crate::PolyError;
use pv_base::{ItemId, MAX_ITEMS, MAX_PROGRAM_ITEMS, MAX_SITES, NoMemory, SiteId, TxnId};
use pv_bytes::{Put, Take};

/// Writes a truth value.
pub fn put_truth(put: &mut Put, truth: bool) -> Result<(), NoMemory>
    ensures written { (bytes : List ℕ) → IsTruth truth bytes → OnOk result (put.new.bytes ≡ put.old.bytes ++ bytes) }
    ensures kept { StartsWith put.new.bytes put.old.bytes }
{
    put.u8(u8::from(truth))
}

/// Writes a transaction.
pub fn put_txn(put: &mut Put, txn: TxnId) -> Result<(), NoMemory>
    ensures written { (bytes : List ℕ) → SpellsTxn txn bytes → OnOk result (put.new.bytes ≡ put.old.bytes ++ bytes) }
    ensures kept { StartsWith put.new.bytes put.old.bytes }
{
    put.bytes(&txn_bytes(txn))
}

/// The bytes of a transaction, to be written at once: there are some in each message, record and literal.
pub(crate) fn txn_bytes(txn: TxnId) -> [u8; 9]
    ensures { result ≡ txn.site.0 ∷ (big_endian 4 txn.epoch ++ big_endian 4 txn.number) }
{
    let [a, b, c, d] = txn.epoch.to_be_bytes();
    let [e, f, g, h] = txn.number.to_be_bytes();
    [txn.site.0, a, b, c, d, e, f, g, h]
}

/// Reads a site's number.
pub fn take_site(take: &mut Take<'_>) -> Result<SiteId, PolyError>
    ensures passes { IfOk result (λ site. Passes (IsSite site.0) site_layout take.old take.new) }
    ensures stops { IfErr result (λ e. Stops site_layout take.old (fault_of e)) }
    ensures memory { result ≢ Err PolyError.NoMemory }
    ensures left { HasGoneOn take.old take.new }
{
    let place = take.place();
    let site = take.u8()?;
    if site >= MAX_SITES {
        return Err(PolyError::BadField(place));
    }
    Ok(SiteId(site))
}

/// Reads a truth value, which is 0 or 1.
pub fn take_truth(take: &mut Take<'_>) -> Result<bool, PolyError>
    ensures passes { IfOk result (λ truth. Passes (IsTruth truth) truth_layout take.old take.new) }
    ensures stops { IfErr result (λ e. Stops truth_layout take.old (fault_of e)) }
    ensures memory { result ≢ Err PolyError.NoMemory }
    ensures left { HasGoneOn take.old take.new }
{
    let place = take.place();
    match take.u8()? {
        0 => Ok(false),
        1 => Ok(true),
        _ => Err(PolyError::BadField(place)),
    }
}

/// Reads a transaction.
pub fn take_txn(take: &mut Take<'_>) -> Result<TxnId, PolyError>
    ensures passes { IfOk result (λ txn. Passes (SpellsTxn txn) txn_layout take.old take.new) }
    ensures stops { IfErr result (λ e. Stops txn_layout take.old (fault_of e)) }
    ensures memory { result ≢ Err PolyError.NoMemory }
    ensures left { HasGoneOn take.old take.new }
{
    let site = take_site(take)?;
    let epoch = take.u32()?;
    let number = take.u32()?;
    Ok(TxnId {
        site,
        epoch,
        number,
    })
}

/// Reads an item's number, where this one is the least that may stand next.
pub fn take_item(take: &mut Take<'_>, least: u32) -> Result<ItemId, PolyError>
    ensures passes { IfOk result (λ item. PassesNumber (IsAllowed 4 (is_item_from least) item.0) 4 (is_item_from least) item.0 take.old take.new) }
    ensures stops { IfErr result (λ e. StopsNumber 4 (is_item_from least) take.old (fault_of e)) }
    ensures memory { result ≢ Err PolyError.NoMemory }
    ensures left { HasGoneOn take.old take.new }
{
    let place = take.place();
    let item = take.u32()?;
    if item < least || item as usize >= MAX_ITEMS {
        return Err(PolyError::BadField(place));
    }
    Ok(ItemId(item))
}

/// Reads a count of entries, of which there have to be so many at least.
pub fn take_count(take: &mut Take<'_>, fewest: u8) -> Result<u8, PolyError>
    ensures passes { IfOk result (λ count. PassesNumber (IsAllowed 1 (is_count_from fewest) count) 1 (is_count_from fewest) count take.old take.new) }
    ensures stops { IfErr result (λ e. StopsNumber 1 (is_count_from fewest) take.old (fault_of e)) }
    ensures memory { result ≢ Err PolyError.NoMemory }
    ensures left { HasGoneOn take.old take.new }
{
    let place = take.place();
    let count = take.u8()?;
    if count < fewest || u32::from(count) > MAX_PROGRAM_ITEMS {
        return Err(PolyError::BadField(place));
    }
    Ok(count)
}
