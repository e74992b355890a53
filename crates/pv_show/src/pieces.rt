// The lines about a site, each put after what a buffer holds.
ghost use Rattle.std.specs.Prelude.{◌≡◌, ◌++◌, codes, decimal, IfOk, OnOk};
ghost use Rattle.pv_show.specs.SiteText.{head_text, refusal_text, word_text};

use pv_base::{NoMemory, SiteId, push_number};
use std::alloc::Global;

/// The line of a site whose items are shown.
#[tactic(auto, unfolding(crate::specs::SiteText::head_text))]
pub(crate) fn push_head(
    text: &mut Vec<u8>,
    site: SiteId,
    epoch: u32,
    records: usize,
) -> Result<(), NoMemory>
    ensures { OnOk result (text.new.items ≡ text.old.items ++ head_text site.0 epoch records) }
{
    push_site(text, site)?;
    text.extend_from_slice(b" epoch ")?;
    push_number(text, u64::from(epoch))?;
    text.extend_from_slice(b" records ")?;
    push_number(text, records as u64)?;
    text.extend_from_slice(b"\n")?;
    Ok(())
}

/// The line of a site that tells one thing: what, with a number.
#[tactic(auto, unfolding(crate::specs::SiteText::refusal_text))]
pub(crate) fn push_refusal(
    text: &mut Vec<u8>,
    site: SiteId,
    what: &[u8],
    number: u64,
) -> Result<(), NoMemory>
    ensures { OnOk result (text.new.items ≡ text.old.items ++ refusal_text site.0 what.now number) }
{
    push_site(text, site)?;
    text.extend_from_slice(b" ")?;
    text.extend_from_slice(what)?;
    text.extend_from_slice(b" ")?;
    push_number(text, number)?;
    text.extend_from_slice(b"\n")?;
    Ok(())
}

/// The line of a site that tells one thing: a word.
#[tactic(auto, unfolding(crate::specs::SiteText::word_text))]
pub(crate) fn push_word(text: &mut Vec<u8>, site: SiteId, word: &[u8]) -> Result<(), NoMemory>
    ensures { OnOk result (text.new.items ≡ text.old.items ++ word_text site.0 word.now) }
{
    push_site(text, site)?;
    text.extend_from_slice(b" ")?;
    text.extend_from_slice(word)?;
    text.extend_from_slice(b"\n")?;
    Ok(())
}

/// The line of a site that tells one thing, with a number, for what else is done with the disks of sites.
pub fn line_with_number(
    alloc: Global,
    site: SiteId,
    what: &[u8],
    number: u64,
) -> Result<Vec<u8>, NoMemory>
    ensures { IfOk result (λ line. line.items ≡ refusal_text site.0 what.now number) }
{
    let mut line = Vec::new(alloc);
    push_refusal(&mut line, site, what, number)?;
    Ok(line)
}

/// The line of a site that tells one thing: a word.
pub fn line_of_word(alloc: Global, site: SiteId, word: &[u8]) -> Result<Vec<u8>, NoMemory>
    ensures { IfOk result (λ line. line.items ≡ word_text site.0 word.now) }
{
    let mut line = Vec::new(alloc);
    push_word(&mut line, site, word)?;
    Ok(line)
}

// What a line about a site begins with.
fn push_site(text: &mut Vec<u8>, site: SiteId) -> Result<(), NoMemory>
    ensures { OnOk result (text.new.items ≡ text.old.items ++ (codes "site " ++ decimal site.0)) }
{
    text.extend_from_slice(b"site ")?;
    push_number(text, u64::from(site.0))
}
