// A box of one site with a client, over a log in memory, and the other ends of its rings. The item a is declared as 100.
ghost use Rattle.std.specs.Prelude.{◌≡◌, ◌<◌, IfOk, length, true};
ghost use Rattle.pv_base.specs.declared.limits.TheConstants.{MAX_JOURNAL};
ghost use Rattle.pv_cell.specs.Box.{IsBox};
ghost use Rattle.pv_cell.specs.Opens.{AreFresh, IsFreshIn, IsFreshOut, IsOpened};
ghost use Rattle.pv_disk.specs.ListLaws.{list_model};
ghost use Rattle.pv_site.specs.Steps.{IsReady};

use pv_base::{Catalog, CatalogError, MAX_JOURNAL, NoMemory, SiteId};
use pv_cell::{SiteBox, Visit, new_sites_fit_boxes};
use pv_disk::ListLog;
use pv_mail::{Answer, Ends, Parcel};
use pv_post::{FaultPlan, In, Out, pair};
use pv_script::Request;
use pv_site::{Site, setup_is_in_range};
use std::alloc::Global;
use std::test::Fail;

const HERE: SiteId = SiteId(0);

// A plan by which no message fails.
const NONE: FaultPlan = FaultPlan {
    drop_each: 0,
    double_each: 0,
};

// the catalog of a
fn catalog(alloc: Global) -> Result<Catalog, CatalogError>
    ensures sites { IfOk result (λ catalog. catalog.sites ≡ 1) }
    ensures journal { IfOk result (λ catalog. catalog.journal ≡ MAX_JOURNAL) }
{
    let mut catalog = Catalog::new(alloc, 1, MAX_JOURNAL);
    catalog.add(b"a", HERE, 100)?;
    Ok(catalog)
}

// the site, just opened on a log
fn opened(alloc: Global, catalog: &Catalog) -> Result<Site<ListLog>, Fail>
    requires journal { catalog.now.journal ≡ MAX_JOURNAL }
    requires site { 0 < catalog.now.sites }
    ensures ready { IfOk result (IsReady list_model) }
    ensures opened { IfOk result IsOpened }
    ensures me { IfOk result (λ site. site.me ≡ 0) }
    ensures catalog { IfOk result (λ site. site.catalog ≡ catalog.now) }
{
    new_sites_fit_boxes::<ListLog>();
    let log = ListLog::new(alloc, MAX_JOURNAL, Vec::new(alloc));
    match Site::open(alloc, log, HERE, catalog) {
        Ok(site) => fresh(site),
        Err(_) => Err("the site isn't opened".into()),
    }
}

// the site, if its opening read nothing from its log
fn fresh(site: Site<ListLog>) -> Result<Site<ListLog>, Fail>
    ensures { IfOk result (λ fresh. (fresh ≡ site) × (fresh.first ≡ true)) }
{
    if site.first() {
        Ok(site)
    } else {
        let _log = site.close();
        Err("the log holds something".into())
    }
}

// the ends that the box has
fn ends_of(
    alloc: Global,
    come: In<Parcel>,
    posts: Out<Parcel>,
    asked: In<Request>,
    tells: Out<Answer>,
) -> Result<Ends, NoMemory>
    requires sites { IsFreshIn come × IsFreshOut posts }
    requires clients { IsFreshIn asked × IsFreshOut tells }
    ensures sites { IfOk result (λ ends. (length ends.sites_in.items ≡ 1) × (length ends.sites_out.items ≡ 1)) }
    ensures clients { IfOk result (λ ends. (length ends.clients_in.items ≡ 1) × (length ends.clients_out.items ≡ 1)) }
    ensures fresh { IfOk result AreFresh }
{
    Ok(Ends {
        sites_in: vec![in alloc; come]?,
        sites_out: vec![in alloc; posts]?,
        clients_in: vec![in alloc; asked]?,
        clients_out: vec![in alloc; tells]?,
    })
}

// the box of the site with these rings
fn boxed(alloc: Global, ends: Ends) -> Result<SiteBox<ListLog>, Fail>
    requires sites { (length ends.sites_in.items ≡ 1) × (length ends.sites_out.items ≡ 1) }
    requires clients { (length ends.clients_in.items ≡ 1) × (length ends.clients_out.items ≡ 1) }
    requires fresh { AreFresh ends }
    ensures { IfOk result (IsBox list_model) }
{
    let catalog = catalog(alloc)?;
    setup_is_in_range(&catalog);
    let site = opened(alloc, &catalog)?;
    Ok(SiteBox::new(alloc, HERE, site, ends)?)
}

/// The box, and the ends of its rings that others have.
#[derive(Drop)]
pub(crate) struct Stage {
    pub(crate) cell: SiteBox<ListLog>,
    /// What the site hears of itself.
    pub(crate) post: Out<Parcel>,
    /// What the site tells itself.
    pub(crate) sent: In<Parcel>,
    /// What the client asks for.
    pub(crate) asks: Out<Request>,
    /// What the client hears.
    pub(crate) hears: In<Answer>,
}

impl Stage {
    /// The box, just made.
    pub(crate) fn new(alloc: Global) -> Result<Stage, Fail>
        ensures { IfOk result (λ stage. IsBox list_model stage.cell) }
    {
        let (post, come) = pair(alloc, NONE)?;
        let (posts, sent) = pair(alloc, NONE)?;
        let (asks, asked) = pair(alloc, NONE)?;
        let (tells, hears) = pair(alloc, NONE)?;
        let ends = ends_of(alloc, come, posts, asked, tells)?;
        Ok(Stage {
            cell: boxed(alloc, ends)?,
            post,
            sent,
            asks,
            hears,
        })
    }

    /// Ends the play: the box, its site and its log are given up one after another.
    pub(crate) fn close(self) {
        let (site, _history) = self.cell.into_parts();
        let _log = site.close();
    }

    /// Whether the box has sent nothing more, and the client hears nothing more.
    pub(crate) fn is_silent(&mut self) -> bool
        ensures { self.new.cell ≡ self.old.cell }
    {
        self.sent.take().is_none() && self.hears.take().is_none()
    }

    /// A visit to the box.
    pub(crate) fn visit(&mut self) -> Visit
        requires { IsBox list_model self.old.cell }
        ensures { IsBox list_model self.new.cell }
    {
        self.cell.visit()
    }

    /// A tick of its site.
    pub(crate) fn tick(&mut self) -> Visit
        requires { IsBox list_model self.old.cell }
        ensures { IsBox list_model self.new.cell }
    {
        self.cell.tick()
    }
}
