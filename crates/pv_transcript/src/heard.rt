// The lines of what clients heard, each put after what a buffer holds.
ghost use Rattle.std.specs.Prelude.{◌≡◌, ◌++◌, OnErr, OnOk, codes};
ghost use Rattle.pv_base.specs.Catalog.{Declared};
ghost use Rattle.pv_protocol.specs.LineText.{numbered_text};
ghost use Rattle.pv_protocol.specs.Report as reading;
ghost use Rattle.pv_report.specs.NamesOnlyItems.{NamesOnlyItems};
ghost use Rattle.pv_report.specs.StillHeld.{StillHeld};
ghost use Rattle.pv_script.specs.LineView.{line_of};
ghost use Rattle.pv_transcript.specs.Begins.{Begins};
ghost use Rattle.pv_transcript.specs.Heard as heard;
ghost use Rattle.pv_transcript.specs.Heard.{client_head, heard_line};

use crate::pieces::{push_bytes, push_numbered};
use pv_base::{Case, Catalog, NoMemory, SiteId, TxnId, push_txn};
use pv_report::{push_line, push_value};
use pv_script::Line;

/// The line of a request of a client, both counted from 0, where the client heard this line of its site.
#[tactic(auto, using(crate::proofs::HeldLemmas::beginnings))]
pub fn push_heard(
    text: &mut Vec<u8>,
    client: u32,
    request: u32,
    line: &Line,
    catalog: &Catalog,
) -> Result<(), NoMemory>
    requires items { NamesOnlyItems catalog.now (line_of line.now) }
    ensures text { OnOk result (text.new.items ≡ text.old.items ++ heard_line catalog.now client request (heard.line (line_of line.now))) }
    ensures held { OnErr result (StillHeld text.old.items text.new.items) }
    ensures begun { OnErr result (Begins text.new.items (text.old.items ++ heard_line catalog.now client request (heard.line (line_of line.now)))) }
{
    push_head(text, client, request)?;
    push_line(text, line, catalog)
}

/// The line of such a request, where the history of the client's site is full.
#[tactic(auto, using(crate::proofs::HeldLemmas::beginnings))]
pub fn push_worn(
    text: &mut Vec<u8>,
    client: u32,
    request: u32,
    site: SiteId,
) -> Result<(), NoMemory>
    ensures text { (catalog : Declared) → OnOk result (text.new.items ≡ text.old.items ++ heard_line catalog client request (heard.worn site.0)) }
    ensures held { OnErr result (StillHeld text.old.items text.new.items) }
    ensures begun { (catalog : Declared) → OnErr result (Begins text.new.items (text.old.items ++ heard_line catalog client request (heard.worn site.0))) }
{
    push_head(text, client, request)?;
    push_numbered(text, b"worn", u64::from(site.0))?;
    push_bytes(text, b"\n")
}

/// The line of such a request, where it was lost for want of memory.
#[tactic(auto, using(crate::proofs::HeldLemmas::beginnings))]
pub fn push_no_memory(text: &mut Vec<u8>, client: u32, request: u32) -> Result<(), NoMemory>
    ensures text { (catalog : Declared) → OnOk result (text.new.items ≡ text.old.items ++ heard_line catalog client request heard.no_memory) }
    ensures held { OnErr result (StillHeld text.old.items text.new.items) }
    ensures begun { (catalog : Declared) → OnErr result (Begins text.new.items (text.old.items ++ heard_line catalog client request heard.no_memory)) }
{
    push_head(text, client, request)?;
    push_bytes(text, b"no-memory\n")
}

/// The line of such a look at an item, which found these cases after so many entries of the history.
#[tactic(auto, using(crate::proofs::HeldLemmas::beginnings))]
pub fn push_peeked(
    text: &mut Vec<u8>,
    client: u32,
    request: u32,
    steps: u64,
    cases: &[Case<i64>],
) -> Result<(), NoMemory>
    ensures text { (catalog : Declared) → OnOk result (text.new.items ≡ text.old.items ++ heard_line catalog client request (heard.peeked steps (reading.cases cases.now))) }
    ensures held { OnErr result (StillHeld text.old.items text.new.items) }
    ensures begun { (catalog : Declared) → OnErr result (Begins text.new.items (text.old.items ++ heard_line catalog client request (heard.peeked steps (reading.cases cases.now)))) }
{
    push_look(text, client, request, steps)?;
    push_value(text, cases)?;
    push_bytes(text, b"\n")
}

/// The line of such a look, which found that the transaction held the item.
#[tactic(auto, using(crate::proofs::HeldLemmas::beginnings))]
pub fn push_peeked_locked(
    text: &mut Vec<u8>,
    client: u32,
    request: u32,
    steps: u64,
    holder: TxnId,
) -> Result<(), NoMemory>
    ensures text { (catalog : Declared) → OnOk result (text.new.items ≡ text.old.items ++ heard_line catalog client request (heard.peeked steps (reading.locked holder))) }
    ensures held { OnErr result (StillHeld text.old.items text.new.items) }
    ensures begun { (catalog : Declared) → OnErr result (Begins text.new.items (text.old.items ++ heard_line catalog client request (heard.peeked steps (reading.locked holder)))) }
{
    push_look(text, client, request, steps)?;
    push_bytes(text, b"locked ")?;
    push_txn(text, holder)?;
    push_bytes(text, b"\n")
}

/// The line of such a look, which found the site down.
#[tactic(auto, using(crate::proofs::HeldLemmas::beginnings))]
pub fn push_peeked_down(
    text: &mut Vec<u8>,
    client: u32,
    request: u32,
    steps: u64,
    site: SiteId,
) -> Result<(), NoMemory>
    ensures text { (catalog : Declared) → OnOk result (text.new.items ≡ text.old.items ++ heard_line catalog client request (heard.peeked steps (reading.down site.0))) }
    ensures held { OnErr result (StillHeld text.old.items text.new.items) }
    ensures begun { (catalog : Declared) → OnErr result (Begins text.new.items (text.old.items ++ heard_line catalog client request (heard.peeked steps (reading.down site.0)))) }
{
    push_look(text, client, request, steps)?;
    push_bytes(text, b"down\n")
}

// What the line of a look begins with.
#[tactic(auto, using(crate::proofs::HeldLemmas::beginnings))]
fn push_look(text: &mut Vec<u8>, client: u32, request: u32, steps: u64) -> Result<(), NoMemory>
    ensures text { OnOk result (text.new.items ≡ text.old.items ++ (client_head client request ++ (numbered_text (codes "peek") steps ++ codes " "))) }
    ensures held { OnErr result (StillHeld text.old.items text.new.items) }
    ensures begun { OnErr result (Begins text.new.items (text.old.items ++ (client_head client request ++ (numbered_text (codes "peek") steps ++ codes " ")))) }
{
    push_head(text, client, request)?;
    push_numbered(text, b"peek", steps)?;
    push_bytes(text, b" ")
}

// What the line begins with.
#[tactic(auto, using(crate::proofs::HeldLemmas::beginnings), unfolding(crate::specs::Heard::client_head))]
fn push_head(text: &mut Vec<u8>, client: u32, request: u32) -> Result<(), NoMemory>
    ensures text { OnOk result (text.new.items ≡ text.old.items ++ client_head client request) }
    ensures held { OnErr result (StillHeld text.old.items text.new.items) }
    ensures begun { OnErr result (Begins text.new.items (text.old.items ++ client_head client request)) }
{
    push_numbered(text, b"client", u64::from(client))?;
    push_numbered(text, b"", u64::from(request))?;
    push_bytes(text, b" ")
}
