// The lines of a schedule's text, as a trace has them before what their events print.
ghost use Rattle.std.specs.Prelude.{◌≡◌, ◌-◌, ◌≤◌, ◌<◌, ◌++◌, [], ◌∷◌, drop, length, take, IfNone, IfOk, IfSome, OnOk};
ghost use Rattle.pv_model.specs.LineForms.{after_blanks, before_blanks};
ghost use Rattle.pv_model.specs.Schedule.{significant};
ghost use Rattle.pv_run.specs.Traced.{first_said, said_text, said_texts};

use pv_base::{NoMemory, is_blank};
use pv_script::{first_line, is_significant, without_return};

// What stands before each line.
const PROMPT: &[u8] = b"> ";

/// Puts all lines but the last ones, as many as these, after what the buffer holds. The answer is the text behind them.
pub fn push_front<'a>(text: &mut Vec<u8>, said: &'a [u8], last: usize) -> Result<&'a [u8], NoMemory>
    ensures text { OnOk result (text.new.items ≡ text.old.items ++ said_texts (take (length (significant said.now) - last) (significant said.now))) }
    ensures rest { IfOk result (λ rest. significant rest.now ≡ drop (length (significant said.now) - last) (significant said.now)) }
{
    let front = count_lines(said).saturating_sub(last);
    let mut rest = said;
    let mut pushed = 0;
    while pushed < front {
        rest = push_next(text, rest)?;
        pushed += 1;
    }
    Ok(rest)
}

/// Puts the next line, where there is one, after what the buffer holds. The answer is the text behind it.
pub fn push_next<'a>(text: &mut Vec<u8>, said: &'a [u8]) -> Result<&'a [u8], NoMemory>
    ensures text { OnOk result (text.new.items ≡ text.old.items ++ first_said (significant said.now)) }
    ensures rest { IfOk result (λ rest. significant rest.now ≡ drop 1 (significant said.now)) }
{
    let Some((line, rest)) = next_line(said) else {
        return Ok(said);
    };
    push_line(text, line)?;
    Ok(rest)
}

// Puts a line after what the buffer holds, behind the prompt and without the blanks at its ends.
fn push_line(text: &mut Vec<u8>, line: &[u8]) -> Result<(), NoMemory>
    ensures { OnOk result (text.new.items ≡ text.old.items ++ said_text line.now) }
{
    text.extend_from_slice(PROMPT)?;
    text.extend_from_slice(without_blanks(line))?;
    text.push(b'\n')?;
    Ok(())
}

// How many lines of the text count.
fn count_lines(text: &[u8]) -> usize
    ensures { result ≡ length (significant text.now) }
{
    let mut rest = text;
    let mut count = 0;
    while let Some((_, later)) = next_line(rest) {
        rest = later;
        count += 1;
    }
    count
}

// The first line that counts, and the text behind it.
fn next_line(text: &[u8]) -> Option<(&[u8], &[u8])>
    ensures none { IfNone result (significant text.now ≡ []) }
    ensures some { IfSome result (λ found. significant text.now ≡ found.0.now ∷ significant found.1.now) }
    ensures shorter { IfSome result (λ found. length found.1.now < length text.now) }
{
    let mut rest = text;
    while !rest.is_empty() {
        let (first, later) = first_line(rest);
        let line = without_return(first);
        if is_significant(line) {
            return Some((line, later));
        }
        rest = later;
    }
    None
}

// The line without the blanks at its ends.
fn without_blanks(line: &[u8]) -> &[u8]
    ensures { result.now ≡ before_blanks (after_blanks line.now) }
{
    before_blanks(after_blanks(line))
}

// What is after the blanks at the front.
fn after_blanks(bytes: &[u8]) -> &[u8]
    ensures { result.now ≡ after_blanks bytes.now }
{
    let mut rest = bytes;
    while let [first, later @ ..] = rest {
        if !is_blank(*first) {
            return rest;
        }
        rest = later;
    }
    rest
}

// What is before the blanks at the end.
fn before_blanks(bytes: &[u8]) -> &[u8]
    ensures { result.now ≡ before_blanks bytes.now }
{
    let mut rest = bytes;
    while let [front @ .., last] = rest {
        if !is_blank(*last) {
            return rest;
        }
        rest = front;
    }
    rest
}
