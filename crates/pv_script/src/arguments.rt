// What stands after the first word of a line that has no program.
ghost use Rattle.std.specs.Prelude.{◌≡◌, ℕ, ◌-◌, ◌^◌, ◌<◌, List, [], ◌∷◌, IfOk, IfErr, OnOk};
ghost use Rattle.pv_base.specs.Catalog.{Declared};
ghost use Rattle.pv_model.specs.LineForms as field;
ghost use Rattle.pv_model.specs.Schedule.{IsIn};
ghost use Rattle.pv_model.specs.Text.{IsDecimal};
ghost use Rattle.pv_script.specs.LineFaults.{texts, IsFieldFault};
ghost use Rattle.pv_script.specs.Keywords.{command_forms, command_word};
ghost use Rattle.pv_script.specs.Said.{IsMost, WordsSay, arm_word};
ghost use Rattle.pv_script.specs.ScheduleView.{event_of, HasPlan};

use crate::fields::{mode_of, number_in, site_in};
use crate::keyword::Command;
use crate::schedule::{Event, LineCause};
use pv_base::{MAX_CALL, MAX_JOURNAL, MAX_PUMP, MAX_SITES, MIN_JOURNAL, SiteId};

/// The count of sites that the words after `sites` spell.
pub fn count_in(args: &[&[u8]]) -> Result<u8, LineCause>
    ensures count { IfOk result (λ n. (word : List ℕ) × (texts args.now ≡ word ∷ []) × IsIn 1 MAX_SITES word n) }
    ensures fault { (sites : ℕ) → IfErr result (IsFieldFault sites ((field.number 1 MAX_SITES ∷ []) ∷ []) (texts args.now)) }
{
    let count = number_alone(args, 1, u64::from(MAX_SITES))?;
    Ok(count as u8)
}

/// The limit of the journals that the words after `journal` spell.
pub fn limit_in(args: &[&[u8]]) -> Result<u64, LineCause>
    ensures limit { IfOk result (λ n. (word : List ℕ) × (texts args.now ≡ word ∷ []) × IsIn MIN_JOURNAL MAX_JOURNAL word n) }
    ensures fault { (sites : ℕ) → IfErr result (IsFieldFault sites ((field.number MIN_JOURNAL MAX_JOURNAL ∷ []) ∷ []) (texts args.now)) }
{
    number_alone(args, MIN_JOURNAL, MAX_JOURNAL)
}

/// The event of a command with these words after it, where there are so many sites.
pub fn event_in(command: Command, args: &[&[u8]], sites: u8) -> Result<Event, LineCause>
    ensures event { IfOk result (λ event. WordsSay sites (command_word command ∷ texts args.now) (event_of event)) }
    ensures plan { (catalog : Declared) → IfOk result (HasPlan catalog) }
    ensures fault { IfErr result (IsFieldFault sites (command_forms command) (texts args.now)) }
{
    match command {
        Command::Deliver => Ok(Event::Deliver(message_in(args)?)),
        Command::Pump => Ok(Event::Pump(most_in(args)?)),
        Command::Lose => Ok(Event::Lose(message_in(args)?)),
        Command::Drop => Ok(Event::Drop(site_alone(args, sites)?)),
        Command::Tick => Ok(Event::Tick(site_alone(args, sites)?)),
        Command::Stop => Ok(Event::Stop(site_alone(args, sites)?)),
        Command::Start => Ok(Event::Start(site_alone(args, sites)?)),
        Command::Cut => arm_in(args, sites, true),
        Command::Fail => arm_in(args, sites, false),
        Command::Mend => Ok(Event::Mend(site_alone(args, sites)?)),
        Command::Checkpoint => Ok(Event::Checkpoint(site_alone(args, sites)?)),
        Command::Sent => {
            nothing_in(args)?;
            Ok(Event::Sent)
        },
        Command::Report => {
            nothing_in(args)?;
            Ok(Event::Report)
        },
        Command::Total => {
            nothing_in(args)?;
            Ok(Event::Total)
        },
    }
}

// The number of a message.
fn message_in(args: &[&[u8]]) -> Result<u64, LineCause>
    ensures message { IfOk result (λ n. (word : List ℕ) × (texts args.now ≡ word ∷ []) × IsIn 0 (2 ^ 64 - 1) word n) }
    ensures fault { (sites : ℕ) → IfErr result (IsFieldFault sites ((field.number 0 (2 ^ 64 - 1) ∷ []) ∷ []) (texts args.now)) }
{
    number_alone(args, 0, u64::MAX)
}

// How many messages are delivered at most, if the line says so.
fn most_in(args: &[&[u8]]) -> Result<Option<u32>, LineCause>
    ensures most { IfOk result (IsMost (texts args.now)) }
    ensures fault { (sites : ℕ) → IfErr result (IsFieldFault sites ([] ∷ (field.number 1 MAX_PUMP ∷ []) ∷ []) (texts args.now)) }
{
    match args {
        [] => Ok(None),
        [word] => most(word),
        _ => Err(LineCause::WrongCount),
    }
}

// The most messages that a word names.
fn most(word: &[u8]) -> Result<Option<u32>, LineCause>
    ensures most { IfOk result (IsMost (word.now ∷ [])) }
    ensures fault { (sites : ℕ) → IfErr result (IsFieldFault sites ([] ∷ (field.number 1 MAX_PUMP ∷ []) ∷ []) (word.now ∷ [])) }
{
    match number_in(word, 1, u64::from(MAX_PUMP)) {
        Some(most) => Ok(Some(most as u32)),
        None => Err(LineCause::BadNumber),
    }
}

// A stop or a failure of a call, with the site, the number of the call and the mode.
fn arm_in(args: &[&[u8]], sites: u8, stop: bool) -> Result<Event, LineCause>
    ensures event { IfOk result (λ event. WordsSay sites (arm_word stop ∷ texts args.now) (event_of event)) }
    ensures plan { (catalog : Declared) → IfOk result (HasPlan catalog) }
    ensures fault { IfErr result (IsFieldFault sites ((field.site ∷ field.number 1 MAX_CALL ∷ field.mode ∷ []) ∷ []) (texts args.now)) }
{
    let [at, number, left] = args else {
        return Err(LineCause::WrongCount);
    };
    let Some(site) = site_in(at, sites) else {
        return Err(LineCause::BadNumber);
    };
    let Some(k) = number_in(number, 1, u64::from(MAX_CALL)) else {
        return Err(LineCause::BadNumber);
    };
    let Some(mode) = mode_of(left) else {
        return Err(LineCause::BadMode);
    };
    let k = k as u32;
    Ok(Event::Arm {
        site,
        k,
        mode,
        stop,
    })
}

// Nothing stands there.
fn nothing_in(args: &[&[u8]]) -> Result<(), LineCause>
    ensures none { OnOk result (texts args.now ≡ []) }
    ensures fault { (sites : ℕ) → IfErr result (IsFieldFault sites ([] ∷ []) (texts args.now)) }
{
    if !args.is_empty() {
        return Err(LineCause::WrongCount);
    }
    Ok(())
}

// A number in a range, alone.
fn number_alone(args: &[&[u8]], least: u64, most: u64) -> Result<u64, LineCause>
    ensures number { IfOk result (λ n. (word : List ℕ) × (texts args.now ≡ word ∷ []) × IsIn least most word n) }
    ensures fault { (sites : ℕ) → IfErr result (IsFieldFault sites ((field.number least most ∷ []) ∷ []) (texts args.now)) }
{
    let [word] = args else {
        return Err(LineCause::WrongCount);
    };
    match number_in(word, least, most) {
        Some(n) => Ok(n),
        None => Err(LineCause::BadNumber),
    }
}

// A site, alone.
fn site_alone(args: &[&[u8]], sites: u8) -> Result<SiteId, LineCause>
    ensures site { IfOk result (λ site. (word : List ℕ) × (texts args.now ≡ word ∷ []) × IsDecimal word site.0 × (site.0 < sites)) }
    ensures fault { IfErr result (IsFieldFault sites ((field.site ∷ []) ∷ []) (texts args.now)) }
{
    let [word] = args else {
        return Err(LineCause::WrongCount);
    };
    match site_in(word, sites) {
        Some(site) => Ok(site),
        None => Err(LineCause::BadNumber),
    }
}
