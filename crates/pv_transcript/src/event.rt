// The lines of events.
ghost use Rattle.std.specs.Prelude.{◌≡◌, ◌++◌, OnErr, OnOk};
ghost use Rattle.pv_model.specs.Schedule.{request_word};
ghost use Rattle.pv_protocol.specs.LineText.{numbered_text};
ghost use Rattle.pv_report.specs.StillHeld.{StillHeld};
ghost use Rattle.pv_script.specs.ScheduleView.{event_of};
ghost use Rattle.pv_transcript.specs.Begins.{Begins};
ghost use Rattle.pv_transcript.specs.ScheduleText.{armed_text, armed_word, event_line, event_words, mode_text, request_text};

use crate::pieces::{push_bytes, push_numbered};
use pv_base::{Mode, NoMemory, SiteId};
use pv_script::Event;

/// Puts the line of an event after what the buffer holds; a request's program stands as its text. Where that text is the program's, the line is meant to be read as the
/// event, which no contract says.
#[tactic(auto, using(crate::proofs::HeldLemmas::beginnings))]
pub fn push_event(text: &mut Vec<u8>, event: &Event) -> Result<(), NoMemory>
    ensures text { OnOk result (text.new.items ≡ text.old.items ++ event_line (event_of event.now)) }
    ensures held { OnErr result (StillHeld text.old.items text.new.items) }
    ensures begun { OnErr result (Begins text.new.items (text.old.items ++ event_line (event_of event.now))) }
{
    push_words(text, event)?;
    push_bytes(text, b"\n")
}

// The line without its line feed.
#[tactic(auto, using(crate::proofs::HeldLemmas::beginnings), unfolding(crate::specs::ScheduleText::event_words))]
fn push_words(text: &mut Vec<u8>, event: &Event) -> Result<(), NoMemory>
    ensures text { OnOk result (text.new.items ≡ text.old.items ++ event_words (event_of event.now)) }
    ensures held { OnErr result (StillHeld text.old.items text.new.items) }
    ensures begun { OnErr result (Begins text.new.items (text.old.items ++ event_words (event_of event.now))) }
{
    match event {
        Event::Submit {
            site,
            query,
            text: program,
            ..
        } => push_request(text, *site, *query, program),
        Event::Deliver(number) => push_numbered(text, b"deliver", *number),
        Event::Pump(None) => push_bytes(text, b"pump"),
        Event::Pump(Some(most)) => push_numbered(text, b"pump", u64::from(*most)),
        Event::Lose(number) => push_numbered(text, b"lose", *number),
        Event::Drop(site) => push_numbered(text, b"drop", u64::from(site.0)),
        Event::Tick(site) => push_numbered(text, b"tick", u64::from(site.0)),
        Event::Stop(site) => push_numbered(text, b"stop", u64::from(site.0)),
        Event::Start(site) => push_numbered(text, b"start", u64::from(site.0)),
        Event::Arm {
            site,
            k,
            mode,
            stop,
        } => push_armed(text, *site, *k, *mode, *stop),
        Event::Mend(site) => push_numbered(text, b"mend", u64::from(site.0)),
        Event::Checkpoint(site) => push_numbered(text, b"checkpoint", u64::from(site.0)),
        Event::Sent => push_bytes(text, b"sent"),
        Event::Report => push_bytes(text, b"report"),
        Event::Total => push_bytes(text, b"total"),
    }
}

// A request with the text of its program.
#[tactic(auto, using(crate::proofs::HeldLemmas::beginnings))]
fn push_request(
    text: &mut Vec<u8>,
    site: SiteId,
    query: bool,
    program: &[u8],
) -> Result<(), NoMemory>
    ensures text { OnOk result (text.new.items ≡ text.old.items ++ request_text site.0 query program.now) }
    ensures held { OnErr result (StillHeld text.old.items text.new.items) }
    ensures begun { OnErr result (Begins text.new.items (text.old.items ++ request_text site.0 query program.now)) }
{
    push_numbered(text, request_word(query), u64::from(site.0))?;
    push_bytes(text, b" ")?;
    push_bytes(text, program)
}

// What a request is called.
fn request_word(query: bool) -> &'static [u8]
    ensures { result.now ≡ request_word query }
{
    if query { b"query" } else { b"submit" }
}

// A write or a sync that stops its site, or fails.
#[tactic(auto, using(crate::proofs::HeldLemmas::beginnings))]
fn push_armed(
    text: &mut Vec<u8>,
    site: SiteId,
    call: u32,
    mode: Mode,
    stops: bool,
) -> Result<(), NoMemory>
    ensures text { OnOk result (text.new.items ≡ text.old.items ++ armed_text site.0 call mode stops) }
    ensures held { OnErr result (StillHeld text.old.items text.new.items) }
    ensures begun { OnErr result (Begins text.new.items (text.old.items ++ armed_text site.0 call mode stops)) }
{
    push_numbered(text, armed_word(stops), u64::from(site.0))?;
    push_numbered(text, b"", u64::from(call))?;
    push_bytes(text, b" ")?;
    push_bytes(text, mode_word(mode))
}

// What such a call is called.
fn armed_word(stops: bool) -> &'static [u8]
    ensures { result.now ≡ armed_word stops }
{
    if stops { b"cut" } else { b"fail" }
}

// The word for what is left of what wasn't synced.
fn mode_word(mode: Mode) -> &'static [u8]
    ensures { result.now ≡ mode_text mode }
{
    match mode {
        Mode::Lost => b"lost",
        Mode::Kept => b"kept",
        Mode::Torn => b"torn",
    }
}
