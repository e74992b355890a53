// What the words after the program's name ask for.
ghost use Rattle.std.specs.Prelude.{◌≡◌, ◌^◌, ◌-◌, ℕ, ◌≤◌, [], ◌∷◌, map, decimal, None, IfSome};
ghost use Rattle.std.specs.String.{string_bytes};
ghost use Rattle.pv_app.specs.Commands.{IsCommand};

use crate::tour::Tour;
use itoa::Buffer;
use pv_cluster::MAX_WORKERS;
use pv_run::Form;
use pv_script::look_up;

/// The greatest number of a schedule that is made. The generator's states are below the number after it, so a greater one would make nothing new.
pub const MAX_NUMBER: u32 = 2_147_483_647;

/// What the program is asked to do.
#[derive(Clone, Copy, Debug, PartialEq, Eq)]
pub enum Command {
    /// Read a schedule, run it, and write what it prints in this form.
    Run(Form),
    /// Write the schedule of this number, at most [`MAX_NUMBER`].
    Make(u32),
    /// Make the schedule of this number, at most [`MAX_NUMBER`], run it, and write the summary of what it prints.
    Big(u32),
    /// Read a live script, and run it with so many workers, at least one and at most [`MAX_WORKERS`].
    Live(u32),
    /// Read a live script, tour the disks of its sites, and write what tells of them.
    Over(Tour),
    /// Read a trace, and write whether its reports agree with the serial runs of their orders.
    Audit,
    /// Read a script of an outbox, run it, and write what it prints.
    Outbox,
    /// Read a script of deciders, run it, and write what it prints.
    Quorum,
}

// The commands of one word, each with its word.
const ONE_WORD: [(&[u8], Command); 8] = [
    (b"run", Command::Run(Form::Text)),
    (b"json", Command::Run(Form::Json)),
    (b"show", Command::Over(Tour::Show)),
    (b"upgrade", Command::Over(Tour::Upgrade)),
    (b"trace", Command::Run(Form::Trace)),
    (b"audit", Command::Audit),
    (b"outbox", Command::Outbox),
    (b"quorum", Command::Quorum),
];

/// The command that the words are, or `None` where they are no command.
pub fn command_of(words: &[String]) -> Option<Command>
    ensures some { IfSome result (IsCommand (map string_bytes words.now)) }
    ensures none { result ≡ None → (command : Command) → IsCommand (map string_bytes words.now) command → ⊥ }
{
    match words {
        [word] => one_word(word.as_str()),
        [word, number] => word_and_number(word.as_str(), number.as_str()),
        _ => None,
    }
}

/// With how many workers the words ask for a live run, or `None` where they don't.
pub fn workers_of(words: &[String]) -> Option<u32>
    ensures some { IfSome result (λ workers. IsCommand (map string_bytes words.now) (Command.Live workers)) }
    ensures none { result ≡ None → (workers : ℕ) → IsCommand (map string_bytes words.now) (Command.Live workers) → ⊥ }
{
    match command_of(words)? {
        Command::Live(workers) => Some(workers),
        _ => None,
    }
}

// The command of one word.
fn one_word(word: &str) -> Option<Command>
    ensures some { IfSome result (IsCommand (word.now ∷ [])) }
    ensures none { result ≡ None → (command : Command) → IsCommand (word.now ∷ []) command → ⊥ }
{
    look_up(word.as_bytes(), &ONE_WORD)
}

// The command of a word and a number.
fn word_and_number(word: &str, text: &str) -> Option<Command>
    ensures some { IfSome result (IsCommand (word.now ∷ text.now ∷ [])) }
    ensures none { result ≡ None → (command : Command) → IsCommand (word.now ∷ text.now ∷ []) command → ⊥ }
{
    let number = number_of(text)?;
    if word == "make" {
        return Some(Command::Make(number));
    }
    if word == "big" {
        return Some(Command::Big(number));
    }
    if word == "live" && number >= 1 && number <= MAX_WORKERS {
        return Some(Command::Live(number));
    }
    None
}

// The number of a schedule or of workers, in decimal without a leading zero.
fn number_of(text: &str) -> Option<u32>
    ensures some { IfSome result (λ n. (text.now ≡ decimal n) × (n ≤ MAX_NUMBER)) }
    ensures none { result ≡ None → (n : ℕ) → n ≤ MAX_NUMBER → text.now ≡ decimal n → ⊥ }
{
    let Ok(number) = text.parse::<u32>() else {
        return None;
    };
    let mut digits = Buffer::new();
    // `parse` takes a `+` and leading zeros too.
    if number <= MAX_NUMBER && digits.format(number) == text {
        Some(number)
    } else {
        None
    }
}

/// The greatest number of a schedule is this one. The function does nothing: it states what the contracts call by the constant's name.
pub fn greatest_number_is_this()
    ensures { MAX_NUMBER ≡ 2 ^ 31 - 1 }
{}
