// What one line of a script says.
ghost use Rattle.std.specs.Prelude.{◌≡◌, [], ◌∷◌, IfOk, IfNone, IfSome, codes};
ghost use Rattle.std.specs.Str.{bytes_eq};
ghost use Rattle.pv_lines.specs.Says.{Gives};
ghost use Rattle.pv_lines.specs.Words.{texts};
ghost use Rattle.pv_outbox_script.specs.Held.{CanHappen, ReadsWords, same};
ghost use Rattle.pv_outbox_script.specs.Script.{ReadsLine};
ghost use Rattle.pv_outbox_script.specs.Words.{plain_said};

use crate::event::Event;
use crate::fields::{alone, arm_in, hold_in, learn_in};
use pv_lines::{Cause, LineFault, words_in};
use std::alloc::Global;

/// What a line that counts says. The first cause is reported of a malformed one, in the order of [`Cause`], unless the memory runs out.
pub fn read_line(alloc: Global, line: &[u8]) -> Result<Event, LineFault>
    ensures said { ReadsLine line.now result }
    ensures possible { IfOk result CanHappen }
{
    match words_in(alloc, line) {
        Ok(words) => event_in(alloc, &words),
        Err(fault) => Err(fault),
    }
}

// What words say.
fn event_in(alloc: Global, words: &[&[u8]]) -> Result<Event, LineFault>
    ensures said { ReadsWords (texts words.now) result }
    ensures possible { IfOk result CanHappen }
{
    let Some((word, args)) = split(words) else {
        return Err(LineFault::At(Cause::UnknownWord));
    };
    if is_hold(word) {
        return hold_in(alloc, args);
    }
    plain_in(alloc, word, args)
}

// Whether the word is `hold`.
fn is_hold(word: &[u8]) -> bool
    ensures { result ≡ bytes_eq word.now (codes "hold") }
{
    word == b"hold".as_slice()
}

// The first word, and those behind it.
fn split<'a, 'b>(words: &'b [&'a [u8]]) -> Option<(&'a [u8], &'b [&'a [u8]])>
    ensures some { IfSome result (λ found. texts words.now ≡ found.0.now ∷ texts found.1.now) }
    ensures none { IfNone result (texts words.now ≡ []) }
{
    let [word, args @ ..] = words else {
        return None;
    };
    Some((word, args))
}

// What the words of a line say that isn't `hold`.
fn plain_in(alloc: Global, word: &[u8], args: &[&[u8]]) -> Result<Event, LineFault>
    ensures said { Gives same (plain_said word.now (texts args.now)) result }
    ensures possible { IfOk result CanHappen }
{
    if word == b"learn".as_slice() {
        return learn_in(alloc, args);
    }
    if word == b"take".as_slice() {
        return alone(Event::Take, args);
    }
    if word == b"cut".as_slice() {
        return arm_in(args, true);
    }
    if word == b"fail".as_slice() {
        return arm_in(args, false);
    }
    if word == b"mend".as_slice() {
        return alone(Event::Mend, args);
    }
    if word == b"stop".as_slice() {
        return alone(Event::Stop, args);
    }
    if word == b"start".as_slice() {
        return alone(Event::Start, args);
    }
    Err(LineFault::At(Cause::UnknownWord))
}
