// What statuses say, for a person.
ghost use Rattle.std.specs.Prelude.{◌≡◌, ◌==◌, find};
ghost use Rattle.std.specs.Option.{option_map};
ghost use Rattle.pv_c.specs.StatusTexts.{GivesText, told_text};

use crate::run::put;
use crate::status::{
    AGAIN, BAD_CASES, BAD_MESSAGE, BAD_PROGRAM, BAD_RECORD, BAD_TEXT, BROKEN_OFF, CLOSED, DONE,
    ENDED, EPOCHS_SPENT, FULL, HAS_EVENTS, IN_USE, KNOWN, MALFORMED, NO_MEMORY, NO_SENDER, NO_SITE,
    NOT_GROWN, NOT_HERE, NOT_NEXT, NOT_ONE_EVENT, NOT_OURS, NOTHING, SENT_LIMIT, TOO_LONG,
    TOO_MANY_OUTCOMES, TOO_SMALL, UNKNOWN_NAME, UNWRITTEN,
};

/// Each status, and what it says.
pub const STATUS_TEXTS: [(u32, &[u8]); 31] = [
    (DONE, b"done"),
    (MALFORMED, b"a line is not in the grammar"),
    (TOO_LONG, b"more than 16,777,216 bytes"),
    (NO_MEMORY, b"no memory"),
    (SENT_LIMIT, b"more bytes of messages than there may be"),
    (CLOSED, b"the handle is closed"),
    (IN_USE, b"the handle is open already"),
    (TOO_SMALL, b"there is too little room"),
    (NOTHING, b"there is nothing now"),
    (HAS_EVENTS, b"there is an event among the lines"),
    (NO_SITE, b"no site has this number"),
    (NOT_OURS, b"the bytes are no journal"),
    (BAD_RECORD, b"the journal has what is no record"),
    (
        TOO_MANY_OUTCOMES,
        b"the journal gives an item too many outcomes",
    ),
    (EPOCHS_SPENT, b"no epoch is left"),
    (
        FULL,
        b"the journal has no room for one more record within its limit",
    ),
    (BAD_TEXT, b"the text is no program"),
    (BAD_PROGRAM, b"the program may not run"),
    (BAD_MESSAGE, b"the bytes are no message"),
    (NOT_HERE, b"it is at another site"),
    (NO_SENDER, b"the message comes from no site"),
    (NOT_NEXT, b"that is not what is to be written next"),
    (UNKNOWN_NAME, b"no item has this name"),
    (UNWRITTEN, b"records wait to be written"),
    (NOT_ONE_EVENT, b"the line is not one event"),
    (
        BROKEN_OFF,
        b"there was no memory within the step, and the world takes no more",
    ),
    (ENDED, b"the world takes no more steps"),
    (
        NOT_GROWN,
        b"the configuration is not what the other has grown to",
    ),
    (AGAIN, b"the output was held before"),
    (KNOWN, b"the outcome is known"),
    (BAD_CASES, b"the text is no condition"),
];

/// Writes what a status says, if there is such a status and room for its text, and says how many bytes that is.
#[unsafe(no_mangle)]
pub extern "C" fn polydb_status_text(status: u32, out: &mut [u8], written: &mut usize) -> u32
    ensures { GivesText (told_text status) out.old out.new written.new result }
{
    let Some(text) = told_text(status) else {
        *written = 0;
        return NOTHING;
    };
    *written = text.len();
    put(text, DONE, out)
}

// What a status says.
#[tactic(auto, unfolding(crate::specs::StatusTexts::told_text))]
fn told_text(status: u32) -> Option<&'static [u8]>
    ensures { option_map (λ text. text.now) result ≡ told_text status }
{
    text_beside(status, &STATUS_TEXTS)
}

// The text beside a status in a table, which is an argument, so that no proof writes the table of statuses out.
fn text_beside<'a>(status: u32, table: &[(u32, &'a [u8])]) -> Option<&'a [u8]>
    ensures { option_map (λ text. text.now) result ≡ option_map (λ entry. entry.1.now) (find (λ entry. status == entry.0) table.now) }
{
    table
        .iter()
        .find(|entry| status == entry.0)
        .map(|entry| entry.1)
}
