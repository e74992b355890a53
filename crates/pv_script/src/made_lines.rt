// The lines of a schedule that is made, each put after what a text holds. After an error a part of the line may stand there.
ghost use Rattle.std.specs.Prelude.{◌≡◌, ◌<◌, ◌++◌, [], get_or, string_bytes, OnOk};
ghost use Rattle.pv_model.specs.LineCauses.{mode_words};
ghost use Rattle.pv_script.specs.Generated.{cut_line, item_line, mend_lines, pump_all_line, pump_line, report_lines, restart_lines, site_line, transfer_line};

use crate::generator::SITES;
use pv_base::NoMemory;
use std::fmt::Write;

/// An item, its site and its first value.
pub fn push_item_line(text: &mut String, item: u32) -> Result<(), NoMemory>
    ensures { OnOk result (string_bytes text.new ≡ string_bytes text.old ++ item_line item) }
{
    let site = item % SITES;
    Ok(write!(text, "item i{item} {site} 1000\n")?)
}

/// A request to move an amount from an item to another, if there is as much.
pub fn push_transfer_line(
    text: &mut String,
    site: u32,
    from: u32,
    to: u32,
    amount: u32,
) -> Result<(), NoMemory>
    ensures { OnOk result (string_bytes text.new ≡ string_bytes text.old ++ transfer_line site from to amount) }
{
    Ok(write!(
        text,
        "submit {site} require i{from} >= {amount} ; i{from} := i{from} - {amount} ; i{to} := i{to} + {amount}\n"
    )?)
}

/// The delivery of at most so many messages.
pub fn push_pump_line(text: &mut String, most: u32) -> Result<(), NoMemory>
    ensures { OnOk result (string_bytes text.new ≡ string_bytes text.old ++ pump_line most) }
{
    Ok(write!(text, "pump {most}\n")?)
}

/// The delivery of all messages.
pub fn push_pump_all_line(text: &mut String) -> Result<(), NoMemory>
    ensures { OnOk result (string_bytes text.new ≡ string_bytes text.old ++ pump_all_line) }
{
    Ok(text.push_str("pump\n")?)
}

/// A word and a site.
pub fn push_site_line(text: &mut String, word: &str, site: u32) -> Result<(), NoMemory>
    ensures { OnOk result (string_bytes text.new ≡ string_bytes text.old ++ site_line word.now site) }
{
    Ok(write!(text, "{word} {site}\n")?)
}

/// A site's stop and its start.
pub fn push_restart_lines(text: &mut String, site: u32) -> Result<(), NoMemory>
    ensures { OnOk result (string_bytes text.new ≡ string_bytes text.old ++ restart_lines site) }
{
    push_site_line(text, "stop", site)?;
    push_site_line(text, "start", site)
}

/// A stop of a site within its `k`-th write or sync from then on, in the mode of this place.
pub fn push_cut_line(text: &mut String, site: u32, k: u32, mode: u32) -> Result<(), NoMemory>
    requires { mode < 3 }
    ensures { OnOk result (string_bytes text.new ≡ string_bytes text.old ++ cut_line site k mode) }
{
    let word = mode_word(mode);
    Ok(write!(text, "cut {site} {k} {word}\n")?)
}

/// The end of what is armed at a site, and its start.
pub fn push_mend_lines(text: &mut String, site: u32) -> Result<(), NoMemory>
    ensures { OnOk result (string_bytes text.new ≡ string_bytes text.old ++ mend_lines site) }
{
    push_site_line(text, "mend", site)?;
    push_site_line(text, "start", site)
}

/// The two reports.
pub fn push_report_lines(text: &mut String) -> Result<(), NoMemory>
    ensures { OnOk result (string_bytes text.new ≡ string_bytes text.old ++ report_lines) }
{
    Ok(text.push_str("report\ntotal\n")?)
}

// The word for the mode of this place.
fn mode_word(mode: u32) -> &'static str
    requires { mode < 3 }
    ensures { result.now ≡ get_or mode_words mode [] }
{
    match mode {
        0 => "lost",
        1 => "kept",
        _ => "torn",
    }
}
