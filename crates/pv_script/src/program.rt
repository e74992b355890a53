// Where the text of a program stands in a line.
ghost use Rattle.std.specs.Prelude.{◌≡◌, ◌≤◌, length};
ghost use Rattle.pv_model.specs.LineForms.{scheduled, live, after_blanks, after_word, before_blanks, program_text};

use pv_base::is_blank;

/// The text of a program in a line of a schedule: what stands after the first two words, without the blanks round it.
#[tactic(auto, unfolding(pv_model::specs::LineForms::program_text))]
pub fn program_text(line: &[u8]) -> &[u8]
    ensures text { result.now ≡ program_text scheduled line.now }
    ensures shorter { length result.now ≤ length line.now }
{
    let site = after_blanks(after_word(after_blanks(line)));
    before_blanks(after_blanks(after_word(site)))
}

/// The text of a program in a line of a live script: what stands after the first word, without the blanks round it.
#[tactic(auto, unfolding(pv_model::specs::LineForms::program_text))]
pub fn live_program_text(line: &[u8]) -> &[u8]
    ensures text { result.now ≡ program_text live line.now }
    ensures shorter { length result.now ≤ length line.now }
{
    before_blanks(after_blanks(after_word(after_blanks(line))))
}

// What is after the blanks at the front.
fn after_blanks(bytes: &[u8]) -> &[u8]
    ensures rest { result.now ≡ after_blanks bytes.now }
    ensures shorter { length result.now ≤ length bytes.now }
{
    let mut rest = bytes;
    while let [first, later @ ..] = rest {
        if !is_blank(*first) {
            return rest;
        }
        rest = later;
    }
    rest
}

// What is after the first word, from the blank on.
fn after_word(bytes: &[u8]) -> &[u8]
    ensures rest { result.now ≡ after_word bytes.now }
    ensures shorter { length result.now ≤ length bytes.now }
{
    let mut rest = bytes;
    while let [first, later @ ..] = rest {
        if is_blank(*first) {
            return rest;
        }
        rest = later;
    }
    rest
}

// What is before the blanks at the end.
fn before_blanks(bytes: &[u8]) -> &[u8]
    ensures rest { result.now ≡ before_blanks bytes.now }
    ensures shorter { length result.now ≤ length bytes.now }
{
    let mut rest = bytes;
    while let [before @ .., last] = rest {
        if !is_blank(*last) {
            return rest;
        }
        rest = before;
    }
    rest
}
