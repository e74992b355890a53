//! The law of tags: over all calls on a site in bytes, a report of a request's number comes with the tag that this very request was given, and nothing else comes with one.
//! The function does nothing: it states a law.
#![tactic(auto)]

ghost use Rattle.std.specs.Prelude.{◌≡◌, ℕ, Bool, List, ◌++◌, Option, Result, Ok, Err, ⊤};
ghost use Rattle.pv_base.specs.declared.failure.NoMemory.{NoMemory};
ghost use Rattle.pv_base.specs.declared.txn.TxnId.{TxnId};
ghost use Rattle.pv_embed.specs.Held.{Held};
ghost use Rattle.pv_embed.specs.Hosted.{Gives};
ghost use Rattle.pv_embed.specs.Outcomes.{TellsOutcome};
ghost use Rattle.pv_embed.specs.Requests.{Begins, ReceivesBy};
ghost use Rattle.pv_embed.specs.declared.asked.Outcome.{Outcome};
ghost use Rattle.pv_embed.specs.declared.asked.OutcomeFault.{OutcomeFault};
ghost use Rattle.pv_embed.specs.declared.fault.ReceiveFault.{ReceiveFault};
ghost use Rattle.pv_embed.specs.declared.fault.SubmitFault.{SubmitFault};
ghost use Rattle.pv_handle.specs.ByteSite.{AcceptsWrite, IsNext, TakesWrite};
ghost use Rattle.pv_handle.specs.ByteState.{ByteState, OnSite, OpensBytes};
ghost use Rattle.pv_handle.specs.Tagged.{SubmitsTagged, TakesTagged};
ghost use Rattle.pv_handle.specs.Tags.{begun_of, tagged};
ghost use Rattle.pv_handle.specs.declared.given.Given.{Given};
ghost use Rattle.pv_handle.specs.declared.given.Given.TheVariants.{Bytes, Nothing, TooSmall};
ghost use Rattle.pv_law_tags.specs.Tagging.{IsOfReport, IsTagged, Tagging, untagged};
ghost use Rattle.pv_protocol.specs.State.{tick};

/// From a site's opening on, whatever is called, what its host was told is a beginning of what it has given: the reports of numbers come in the order of the requests that have
/// begun, each with the tag of its own request (`taken`), and with all else comes 0. An accepted request adds its tag with the number that it gets, if it gets one
/// (`submitted`); no other call gives, takes or tells a tag.
///
/// So of a transaction that commits, whose number was let out before (`commits_have_their_numbers_out` of pv_law_hosted), the host was told the tag of its request, where it took that
/// report by the call that gives tags: the call without drops the tag.
pub fn tags_are_told_with_their_numbers()
    ensures opened { (config file : List ℕ) (me : ℕ) (site : ByteState) → OpensBytes config me file (Ok site) → IsTagged untagged site }
    ensures submitted { (tagging : Tagging) (old new : ByteState) (text : List ℕ) (query : Bool) (tag : ℕ) (done : ⊤) → IsTagged tagging old →
        SubmitsTagged text query tag old new (Ok done) →
        (begun : Option TxnId) × Begins old.hosted new.hosted begun × IsTagged (record tagging { given = tagging.given ++ tagged begun tag }) new }
    ensures refused { (tagging : Tagging) (old new : ByteState) (text : List ℕ) (query : Bool) (tag : ℕ) (fault : SubmitFault) → IsTagged tagging old →
        SubmitsTagged {X = ⊤} text query tag old new (Err fault) → IsTagged tagging new }
    ensures received { (tagging : Tagging) (old new : ByteState) (bytes : List ℕ) (result : Result ⊤ ReceiveFault) → IsTagged tagging old →
        OnSite (λ before after. ReceivesBy before after bytes) old new result → IsTagged tagging new }
    ensures ticked { (tagging : Tagging) (old new : ByteState) (result : Result ⊤ NoMemory) → IsTagged tagging old →
        OnSite (λ before after. Gives before after tick) old new result → IsTagged tagging new }
    ensures asked { (tagging : Tagging) (old new : ByteState) (room out : List ℕ) (given : Given) → IsTagged tagging old →
        TakesWrite room out old new given → IsTagged tagging new }
    ensures wrote { (tagging : Tagging) (old new : ByteState) (place count : ℕ) (result : Result ⊤ NoMemory) → IsTagged tagging old →
        AcceptsWrite place count old new result → IsTagged tagging new }
    ensures told { (tagging : Tagging) (old new : ByteState) (txn : TxnId) (result : Result Outcome OutcomeFault) → IsTagged tagging old →
        OnSite (λ before after. TellsOutcome before after txn) old new result → IsTagged tagging new }
    ensures taken { (tagging : Tagging) (old new : ByteState) (room out : List ℕ) (tag count to : ℕ) → IsTagged tagging old →
        TakesTagged {E = NoMemory} room out tag old new (Ok (Bytes count to)) →
        (next : Held) × (later : List Held) × IsNext old.hosted next later × IsOfReport (begun_of next.out) tag ×
        IsTagged (record tagging { told = tagging.told ++ tagged (begun_of next.out) tag }) new }
    ensures untaken { (tagging : Tagging) (old new : ByteState) (room out : List ℕ) (tag : ℕ) → IsTagged tagging old →
        TakesTagged {E = NoMemory} room out tag old new (Ok Nothing) → (tag ≡ 0) × IsTagged tagging new }
    ensures too_small { (tagging : Tagging) (old new : ByteState) (room out : List ℕ) (tag needed : ℕ) → IsTagged tagging old →
        TakesTagged {E = NoMemory} room out tag old new (Ok (TooSmall needed)) → (tag ≡ 0) × IsTagged tagging new }
    ensures unmade { (tagging : Tagging) (old new : ByteState) (room out : List ℕ) (tag : ℕ) (fault : NoMemory) → IsTagged tagging old →
        TakesTagged room out tag old new (Err fault) → (tag ≡ 0) × IsTagged tagging new }
{}
