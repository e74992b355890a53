// The fields that only messages have.
ghost use Rattle.std.specs.Prelude.{◌≡◌, ◌≢◌, ◌++◌, ℕ, List, IfOk, IfErr, OnOk};
ghost use Rattle.pv_format.specs.Layout.{cause_layout, grant_layout};
ghost use Rattle.pv_format.specs.MessageSpelling.{SpellsNoCause};
ghost use Rattle.pv_format.specs.Spelling.{SpellsGrant};
ghost use Rattle.pv_fields.specs.Decoding.{Passes, Stops};
ghost use Rattle.pv_replay.specs.Faults.{fault_of};
ghost use Rattle.pv_wire.specs.Values.{cause_of};

use crate::NoCause;
use pv_base::{GrantId, NoMemory};
use pv_bytes::{Put, Take};
use pv_replay::PolyError;

/// Writes a grant.
pub fn put_grant(put: &mut Put, grant: GrantId) -> Result<(), NoMemory>
    ensures { (bytes : List ℕ) → SpellsGrant grant bytes → OnOk result (put.new.bytes ≡ put.old.bytes ++ bytes) }
{
    put.bytes(&grant_bytes(grant))
}

// The bytes of a grant, to be written at once.
fn grant_bytes(grant: GrantId) -> [u8; 8]
    ensures { (bytes : List ℕ) → SpellsGrant grant bytes → result ≡ bytes }
{
    let [a, b, c, d] = grant.epoch.to_be_bytes();
    let [e, f, g, h] = grant.number.to_be_bytes();
    [a, b, c, d, e, f, g, h]
}

/// Writes why a participant won't promise.
pub fn put_cause(put: &mut Put, cause: NoCause) -> Result<(), NoMemory>
    ensures { (bytes : List ℕ) → SpellsNoCause (cause_of cause) bytes → OnOk result (put.new.bytes ≡ put.old.bytes ++ bytes) }
{
    match cause {
        NoCause::GrantLost => put.u8(1),
        NoCause::JournalFull(length) => {
            put.u8(2)?;
            put.u64(length)
        }
    }
}

/// Reads a grant.
pub fn take_grant(take: &mut Take<'_>) -> Result<GrantId, PolyError>
    ensures passes { IfOk result (λ grant. Passes (SpellsGrant grant) grant_layout take.old take.new) }
    ensures stops { IfErr result (λ e. Stops grant_layout take.old (fault_of e)) }
    ensures memory { result ≢ Err PolyError.NoMemory }
{
    let epoch = take.u32()?;
    let number = take.u32()?;
    Ok(GrantId { epoch, number })
}

/// Reads why a participant won't promise.
pub fn take_cause(take: &mut Take<'_>) -> Result<NoCause, PolyError>
    ensures passes { IfOk result (λ cause. Passes (SpellsNoCause (cause_of cause)) cause_layout take.old take.new) }
    ensures stops { IfErr result (λ e. Stops cause_layout take.old (fault_of e)) }
    ensures memory { result ≢ Err PolyError.NoMemory }
{
    let place = take.place();
    let cause = take.u8()?;
    if cause == 1 {
        return Ok(NoCause::GrantLost);
    }
    if cause != 2 {
        return Err(PolyError::BadField(place));
    }
    let length = take.u64()?;
    Ok(NoCause::JournalFull(length))
}
