// The long schedule that a number makes. Each function puts its lines after what a text holds; after an error a part of them may stand there.
ghost use Rattle.std.specs.Prelude.{◌≡◌, ◌++◌, codes, string_bytes, IfOk, OnOk};
ghost use Rattle.pv_script.specs.Generated.{after_draws, after_event, after_round, cut_text, each_below, end_text, event_text, item_line, made_text, mend_lines, round_text, rounds_text, site_line, start_text, tick_round_text, transfer_text};

use crate::draws::Draws;
use crate::made_lines::{
    push_cut_line, push_item_line, push_mend_lines, push_pump_all_line, push_pump_line,
    push_report_lines, push_restart_lines, push_site_line, push_transfer_line,
};
use pv_base::NoMemory;
use std::alloc::Global;

/// How many sites the schedule has.
pub const SITES: u32 = 16;

// How many items.
const ITEMS: u32 = 64;

// How many transfers.
const ROUNDS: u32 = 2_000;

// How often each clock ticks at the end.
const TICK_ROUNDS: u32 = 3;

/// The text of a long schedule, for tests and benches: 2,000 transfers between 64 items at 16 sites, with lost messages, stops, ticks and
/// faults between them, and in the end what settles them all. The same number makes the same text.
///
/// It has some 6,400 lines and 160,000 bytes, and takes time in proportion to them.
#[tactic(auto, unfolding(crate::specs::Generated::made_text))]
pub fn make(alloc: Global, number: u32) -> Result<Vec<u8>, NoMemory>
    ensures { IfOk result (λ text. text.items ≡ made_text number) }
{
    let mut text = String::new(alloc);
    let mut draws = Draws { state: number };
    push_start(&mut text)?;
    push_rounds(&mut text, &mut draws, ROUNDS)?;
    push_end(&mut text)?;
    Ok(text.into_bytes())
}

// The sites and the items.
fn push_start(text: &mut String) -> Result<(), NoMemory>
    ensures { OnOk result (string_bytes text.new ≡ string_bytes text.old ++ start_text) }
{
    text.push_str("sites 16\n")?;
    push_items(text, ITEMS)
}

// The first so many items.
fn push_items(text: &mut String, items: u32) -> Result<(), NoMemory>
    ensures { OnOk result (string_bytes text.new ≡ string_bytes text.old ++ each_below item_line items) }
{
    for item in 0..items {
        push_item_line(text, item)?;
    }
    Ok(())
}

// So many rounds.
fn push_rounds(text: &mut String, draws: &mut Draws, rounds: u32) -> Result<(), NoMemory>
    ensures { OnOk result (string_bytes text.new ≡ string_bytes text.old ++ rounds_text rounds draws.old.state) }
{
    for _round in 0..rounds {
        push_round(text, draws)?;
    }
    Ok(())
}

// A transfer, the delivery of some messages, and something that happens to a site.
fn push_round(text: &mut String, draws: &mut Draws) -> Result<(), NoMemory>
    ensures text { OnOk result (string_bytes text.new ≡ string_bytes text.old ++ round_text draws.old.state) }
    ensures state { OnOk result (draws.new.state ≡ after_round draws.old.state) }
{
    push_transfer(text, draws)?;
    push_pump_line(text, 1 + draws.draw(12))?;
    push_event(text, draws)
}

// A transfer of 1 to 20 from an item to another.
#[tactic(auto, unfolding(crate::specs::Generated::transfer_text))]
fn push_transfer(text: &mut String, draws: &mut Draws) -> Result<(), NoMemory>
    ensures text { OnOk result (string_bytes text.new ≡ string_bytes text.old ++ transfer_text draws.old.state) }
    ensures state { OnOk result (draws.new.state ≡ after_draws 4 draws.old.state) }
{
    let from = draws.draw(ITEMS);
    // From 1 to 63 items on, so it is never the same one.
    let to = (from + 1 + draws.draw(ITEMS - 1)) % ITEMS;
    let amount = 1 + draws.draw(20);
    let site = draws.draw(SITES);
    push_transfer_line(text, site, from, to, amount)
}

// Something that happens to a site, or the delivery of all messages.
#[tactic(auto, unfolding(crate::specs::Generated::event_of, crate::specs::Generated::draws_of))]
fn push_event(text: &mut String, draws: &mut Draws) -> Result<(), NoMemory>
    ensures text { OnOk result (string_bytes text.new ≡ string_bytes text.old ++ event_text draws.old.state) }
    ensures state { OnOk result (draws.new.state ≡ after_event draws.old.state) }
{
    match draws.draw(8) {
        0 => push_site_line(text, "drop", draws.draw(SITES)),
        1 => push_site_line(text, "tick", draws.draw(SITES)),
        2 => push_restart_lines(text, draws.draw(SITES)),
        3 => push_cut(text, draws),
        4 => push_site_line(text, "start", draws.draw(SITES)),
        _ => push_pump_all_line(text),
    }
}

// A stop of a site within one of its next four writes and syncs.
#[tactic(auto, unfolding(crate::specs::Generated::cut_text))]
fn push_cut(text: &mut String, draws: &mut Draws) -> Result<(), NoMemory>
    ensures text { OnOk result (string_bytes text.new ≡ string_bytes text.old ++ cut_text draws.old.state) }
    ensures state { OnOk result (draws.new.state ≡ after_draws 3 draws.old.state) }
{
    let site = draws.draw(SITES);
    let k = 1 + draws.draw(4);
    let mode = draws.draw(3);
    push_cut_line(text, site, k, mode)
}

// All sites run again, all messages are delivered, the clocks tick until nobody waits any more, and the reports come.
fn push_end(text: &mut String) -> Result<(), NoMemory>
    ensures { OnOk result (string_bytes text.new ≡ string_bytes text.old ++ end_text) }
{
    push_mends(text, SITES)?;
    push_pump_all_line(text)?;
    push_tick_rounds(text, TICK_ROUNDS)?;
    push_report_lines(text)
}

// The first so many sites run again, and nothing is armed there.
fn push_mends(text: &mut String, sites: u32) -> Result<(), NoMemory>
    ensures { OnOk result (string_bytes text.new ≡ string_bytes text.old ++ each_below mend_lines sites) }
{
    for site in 0..sites {
        push_mend_lines(text, site)?;
    }
    Ok(())
}

// So many ticks of each clock.
fn push_tick_rounds(text: &mut String, rounds: u32) -> Result<(), NoMemory>
    ensures { OnOk result (string_bytes text.new ≡ string_bytes text.old ++ each_below (λ _. tick_round_text) rounds) }
{
    for _round in 0..rounds {
        push_tick_round(text)?;
    }
    Ok(())
}

// A tick of each clock, and the delivery of all messages.
fn push_tick_round(text: &mut String) -> Result<(), NoMemory>
    ensures { OnOk result (string_bytes text.new ≡ string_bytes text.old ++ tick_round_text) }
{
    push_ticks(text, SITES)?;
    push_pump_all_line(text)
}

// A tick of the clocks of the first so many sites.
fn push_ticks(text: &mut String, sites: u32) -> Result<(), NoMemory>
    ensures { OnOk result (string_bytes text.new ≡ string_bytes text.old ++ each_below (site_line (codes "tick")) sites) }
{
    for site in 0..sites {
        push_site_line(text, "tick", site)?;
    }
    Ok(())
}
