// The entries of histories in the order of stamps, and at one stamp in the order of sites, as lines of a schedule, with what they print. By hand, and not by pv_merge,
// which asks for a proof that they fit together: that they do is what the tests try.
use pv_base::SiteId;
use pv_history::{Entry, Seen, Taken, line_of};
use pv_script::Line;
use std::alloc::Global;
use std::test::Fail;

/// A schedule, and the lines that it prints, each as it is debugged.
#[derive(Drop)]
pub(crate) struct Merged {
    pub(crate) schedule: Vec<u8>,
    pub(crate) lines: String,
    // What each entry so far has sent.
    sent: Vec<Sent>,
    // How many messages were sent so far.
    count: u64,
}

// The number of the first message that a site sent at a stamp.
#[derive(Clone, Copy)]
struct Sent {
    site: u8,
    stamp: u64,
    first: u64,
}

// Where an entry stands: its stamp, its site and its place in the history of that site.
type Place = (u64, u8, usize);

/// The schedule of what these sites took in, behind the lines of a catalog.
pub(crate) fn merge_histories(
    alloc: Global,
    catalog: &[u8],
    histories: &[Vec<Entry>],
) -> Result<Merged, Fail> {
    let mut merged = Merged {
        schedule: Vec::from_slice(alloc, catalog)?,
        lines: String::new(alloc),
        sent: Vec::new(alloc),
        count: 0,
    };
    for (_, site, place) in in_order(alloc, histories)? {
        match entry_at(histories, site, place) {
            Some(entry) => merged.push(alloc, site, entry)?,
            None => return Err("each place has its entry".into()),
        }
    }
    Ok(merged)
}

// The places of all entries, in order.
fn in_order(alloc: Global, histories: &[Vec<Entry>]) -> Result<Vec<Place>, Fail> {
    let mut places: Vec<Place> = Vec::new(alloc);
    let mut site = 0;
    for history in histories {
        for (place, entry) in history.iter().enumerate() {
            places.push((entry.stamp, site, place))?;
        }
        site = u8::wrapping_add(site, 1);
    }
    places.sort_unstable();
    Ok(places)
}

// The entry at this place of the site's history.
fn entry_at(histories: &[Vec<Entry>], site: u8, place: usize) -> Option<&Entry> {
    histories.get(site as usize)?.get(place)
}

impl Merged {
    // The next entry, of this site.
    fn push(&mut self, alloc: Global, site: u8, entry: &Entry) -> Result<(), Fail> {
        self.push_event(alloc, site, &entry.input)?;
        self.sent.push(Sent {
            site,
            stamp: entry.stamp,
            first: self.count,
        })?;
        self.count = self.count.wrapping_add(u64::from(entry.sends));
        self.push_lines(alloc, site, &entry.seen)
    }

    // The next text of the schedule.
    fn push_text(&mut self, text: &str) -> Result<(), Fail> {
        self.schedule.extend_from_slice(text.as_bytes())?;
        Ok(())
    }

    // The event that is what the site took in.
    fn push_event(&mut self, alloc: Global, site: u8, taken: &Taken) -> Result<(), Fail> {
        match taken {
            Taken::Request { request, .. } => {
                let word = if request.query { "query" } else { "submit" };
                self.push_text(&format!(in alloc; "{word} {site} ")?)?;
                self.schedule.extend_from_slice(&request.text)?;
                self.push_text("\n")
            }
            Taken::Parcel {
                from,
                stamp,
                place,
                ..
            } => {
                let number = self
                    .first_of(from.0, *stamp)
                    .wrapping_add(u64::from(*place));
                self.push_text(&format!(in alloc; "deliver {number}\n")?)
            }
            Taken::Tick => self.push_text(&format!(in alloc; "tick {site}\n")?),
        }
    }

    // The number of the first message that the site sent at this stamp; one that was never sent, if it sent nothing then.
    fn first_of(&self, site: u8, stamp: u64) -> u64 {
        for sent in &self.sent {
            if sent.site == site && sent.stamp == stamp {
                return sent.first;
            }
        }
        // No message has this number: far fewer are sent.
        1_000_000
    }

    // The lines of what came of it.
    fn push_lines(&mut self, alloc: Global, site: u8, seen: &Seen) -> Result<(), Fail> {
        match seen {
            Seen::Done(notes) => {
                for note in notes {
                    self.push_line(alloc, &line_of(alloc, SiteId(site), note)?)?;
                }
                Ok(())
            }
            Seen::Fault => self.push_line(alloc, &Line::Fault(SiteId(site))),
            Seen::Down => self.push_line(alloc, &Line::Down(SiteId(site))),
        }
    }

    // A line.
    fn push_line(&mut self, alloc: Global, line: &Line) -> Result<(), Fail> {
        self.lines.push_str(&format!(in alloc; "{line:?}\n")?)?;
        Ok(())
    }
}
