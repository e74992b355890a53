// The boxes of sites, with the ends of their rings.
ghost use Rattle.std.specs.Prelude.{◌≡◌, ◌<◌, ◌++◌, ◌∷◌, [], IfOk, length};
ghost use Rattle.pv_opening.specs.Boxing.{AreBoxed, AreNewEnds, AreRows, HaveSome, IsLastOf};
ghost use Rattle.pv_opening.specs.Opened.{IsNewBox};
ghost use Rattle.pv_opening.specs.Opening.{AreNew, IsNew};

use pv_base::{Catalog, NoMemory, SiteId};
use pv_cell::{SiteBox, new_sites_fit_boxes};
use pv_disk::Log;
use pv_mail::{Answer, Ends, Parcel};
use pv_post::{In, Out};
use pv_script::Request;
use pv_site::{Site, setup_is_in_range};
use std::alloc::Global;

/// The ends of the rings of several boxes: of each kind a row for each box, in order. What stands at a place of a row is of the site of that number, or, in the rows of
/// clients, of the client at that place among the box's own.
#[derive(Drop)]
pub(crate) struct EndRows {
    /// What each box takes from the sites.
    pub sites_in: Vec<Vec<In<Parcel>>>,
    /// What it sends to the sites.
    pub sites_out: Vec<Vec<Out<Parcel>>>,
    /// What its clients ask for.
    pub clients_in: Vec<Vec<In<Request>>>,
    /// What its clients hear.
    pub clients_out: Vec<Vec<Out<Answer>>>,
}

impl EndRows {
    // Takes out the ends of the last box.
    fn take_last(&mut self) -> Ends
        requires { HaveSome self.old }
        ensures { IsLastOf self.old self.new result }
    {
        Ends {
            sites_in: last_of(&mut self.sites_in),
            sites_out: last_of(&mut self.sites_out),
            clients_in: last_of(&mut self.clients_in),
            clients_out: last_of(&mut self.clients_out),
        }
    }
}

/// A box for each site of the catalog, in order, with its ends. The sites were opened on logs in which nothing was found.
pub(crate) fn box_all<L: Log>(
    alloc: Global,
    catalog: &Catalog,
    sites: Vec<Site<L>>,
    rows: EndRows,
) -> Result<Vec<SiteBox<L>>, NoMemory>
    requires sites { AreNew L.model catalog.now sites.items }
    requires rows { AreRows catalog.now.sites rows }
    ensures { IfOk result (λ boxes. AreBoxed L.model catalog.now sites.items rows boxes.items) }
{
    setup_is_in_range(catalog);
    // Sites and rows are taken from the end, where nothing has to move; so the last box is made first.
    let mut sites = sites;
    let mut rows = rows;
    let mut boxes = Vec::new(alloc);
    while let Some(site) = sites.pop() {
        let ends = rows.take_last();
        let me = SiteId(sites.len() as u8);
        let new = box_one(alloc, catalog, me, site, ends)?;
        boxes.push(new)?;
    }
    boxes.reverse();
    Ok(boxes)
}

// A box for the site of this number.
fn box_one<L: Log>(
    alloc: Global,
    catalog: &Catalog,
    me: SiteId,
    site: Site<L>,
    ends: Ends,
) -> Result<SiteBox<L>, NoMemory>
    requires me { me.0 < catalog.now.sites }
    requires site { IsNew L.model catalog.now me.0 site }
    requires ends { AreNewEnds catalog.now.sites ends }
    ensures new { IfOk result (IsNewBox L.model catalog.now me.0 site) }
    ensures ends { IfOk result (λ new. new.ends ≡ ends) }
{
    setup_is_in_range(catalog);
    new_sites_fit_boxes::<L>();
    let new = SiteBox::new(alloc, me, site, ends)?;
    Ok(new)
}

// Takes out the last one.
fn last_of<A: Drop>(all: &mut Vec<A>) -> A
    requires { 0 < length all.old.items }
    ensures { all.old.items ≡ all.new.items ++ result ∷ [] }
{
    all.pop().unwrap()
}
