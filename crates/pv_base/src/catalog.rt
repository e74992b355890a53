// The catalog of items: which there are, at which site, and with which first value.
ghost use Rattle.std.specs.Prelude.{◌≡◌, ◌≢◌, ◌+◌, ◌<◌, ◌≤◌, Err, Some, None, [], ◌∷◌, ◌++◌, length, map, slice_get, All, OnErr, OnOk, IfOk, IfErr, IfSome, IsTrue};
ghost use Rattle.std.specs.Int.{w64};
ghost use Rattle.std.specs.Int.RustNames.{FitsSigned};
ghost use Rattle.std.specs.Option.{option_map};

use crate::entries::{
    Declaration, Entries, copy_items, count_of, declaration_at, find_item, name_at, push_item,
};
use crate::{MAX_ITEMS, MAX_JOURNAL, MAX_SITES, MIN_JOURNAL, NoMemory, SiteId, is_name};
use indexmap::IndexMap;
use std::alloc::{AllocError, AllocFailed, Global};
use std::marker::Model;
use thiserror::Error;

/// An item, numbered from 0 in order of declaration.
#[derive(Clone, Copy, Debug, PartialEq, Eq, PartialOrd, Ord, Hash)]
pub struct ItemId(pub u32);

/// Why an item wasn't added.
#[derive(Clone, Copy, Debug, PartialEq, Eq, Error)]
pub enum CatalogError {
    /// The text isn't a name: 1 to 16 bytes, a lower-case letter and then lower-case letters, digits and `_`, and no
    /// keyword.
    #[error("not a name")]
    BadName,
    /// This item has the name.
    #[error("the name is taken")]
    NameTaken(ItemId),
    /// There is no such site.
    #[error("no such site")]
    NoSite,
    /// The catalog holds [`MAX_ITEMS`] items.
    #[error("too many items")]
    TooMany,
    /// There was no memory for the item.
    #[error("no memory")]
    NoMemory,
}

impl From<AllocError> for CatalogError {
    ghost use Rattle.pv_base.specs.declared.catalog.CatalogError.TheVariants as error;

    ghost from_gives = { λ _ e. e ≡ error.NoMemory };

    fn from(_: AllocError) -> Self {
        CatalogError::NoMemory
    }
}

impl<T: Drop> From<AllocFailed<T>> for CatalogError {
    ghost use Rattle.pv_base.specs.declared.catalog.CatalogError.TheVariants as error;

    ghost from_gives = { λ _ e. e ≡ error.NoMemory };

    fn from(_: AllocFailed<T>) -> Self {
        CatalogError::NoMemory
    }
}

/// What is declared of a database before it runs: how many sites there are, how long each site's journal may grow, and
/// the items in order of declaration, no two of one name.
///
/// It gives each item a number, its [`ItemId`], by which everything else refers to the item, and it gives the name, the
/// site and the first value of each. What an item holds later isn't in it.
#[derive(Debug, Drop)]
pub struct Catalog {
    /// Where the memory for the items comes from.
    alloc: Global,
    /// How many sites there are, 1 to [`MAX_SITES`].
    sites: u8,
    /// The limit of each journal, in bytes, [`MIN_JOURNAL`] to [`MAX_JOURNAL`].
    journal: u64,
    /// The items by name, at most [`MAX_ITEMS`]. The place of each is its number.
    items: Entries,
}

impl Model for Catalog {
    ghost use Rattle.pv_base.specs.Catalog.{Declared};

    ghost Value = { Declared };

    ghost use Rattle.pv_base.specs.CatalogView.{declared_of, IsWithinLimits};

    ghost view = { declared_of };

    ghost invariant = { IsWithinLimits };
}

impl Catalog {
    ghost use Rattle.pv_base.specs.Answer.{Refuses};
    ghost use Rattle.pv_base.specs.Catalog.{Item, place_of, refusal, with_item};
    ghost use Rattle.pv_base.specs.Name.{is_name};

    /// A catalog without items, of 1 to [`MAX_SITES`] sites, whose journals may each have up to `journal` bytes, from
    /// [`MIN_JOURNAL`] to [`MAX_JOURNAL`].
    pub fn new(alloc: Global, sites: u8, journal: u64) -> Catalog
        requires some_site { 1 ≤ sites }
        requires few_sites { sites ≤ MAX_SITES }
        requires room { MIN_JOURNAL ≤ journal }
        requires fits { journal ≤ MAX_JOURNAL }
        ensures { result ≡ record { sites = sites; journal = journal; items = [] } }
    {
        Catalog {
            alloc,
            sites,
            journal,
            items: IndexMap::new(alloc),
        }
    }

    /// Adds an item, the last, and answers its number.
    ///
    /// It is refused with the first of these that holds, and then the catalog is as it was:
    ///
    /// 1. `BadName`: the text isn't a name.
    /// 2. `NameTaken`: an item has the name. The error says which.
    /// 3. `NoSite`: the catalog has no such site.
    /// 4. `TooMany`: the catalog holds [`MAX_ITEMS`] items.
    /// 5. `NoMemory`: there was no memory for the item.
    ///
    /// The cost is that of copying the name and, amortized over the additions, a constant for the map.
    pub fn add(&mut self, name: &[u8], site: SiteId, value: i64) -> Result<ItemId, CatalogError>
        ensures number { IfOk result (λ item. item.0 ≡ length self.old.items) }
        ensures added { let item : Item = record { name = name.now; site = site.0; value = value } in
            OnOk result (self.new ≡ with_item self.old item) }

        ensures refused { Refuses (refusal self.old name.now site.0) CatalogError.NoMemory result }
        ensures unchanged { OnErr result (self.new ≡ self.old) }
    {
        if !is_name(name) {
            return Err(CatalogError::BadName);
        }
        if let Some(item) = self.find(name) {
            return Err(CatalogError::NameTaken(item));
        }
        if site.0 >= self.sites {
            return Err(CatalogError::NoSite);
        }
        let count = count_of(&self.items);
        if count >= MAX_ITEMS {
            return Err(CatalogError::TooMany);
        }
        let name = Vec::from_slice(self.alloc, name)?;
        push_item(&mut self.items, name, Declaration { site, value })?;
        Ok(ItemId(count as u32))
    }

    /// Gives each journal another limit, from [`MIN_JOURNAL`] to [`MAX_JOURNAL`].
    pub fn limit_journals(&mut self, journal: u64)
        requires room { MIN_JOURNAL ≤ journal }
        requires fits { journal ≤ MAX_JOURNAL }
        ensures { self.new ≡ record self.old { journal = journal } }
    {
        self.journal = journal;
    }

    /// An equal catalog, which shares nothing with this one. Its one error is [`NoMemory`]. The cost is linear in the
    /// count of items, and in the bytes of their names.
    pub fn copy(&self) -> Result<Catalog, NoMemory>
        ensures { IfOk result (λ copy. copy ≡ self.now) }
    {
        let items = copy_items(&self.items)?;
        Ok(Catalog {
            alloc: self.alloc,
            sites: self.sites,
            journal: self.journal,
            items,
        })
    }

    /// The item of that name, or `None` where no item has the name.
    pub fn find(&self, name: &[u8]) -> Option<ItemId>
        ensures { option_map (λ item. item.0) result ≡ place_of name.now self.now.items }
    {
        let place = find_item(&self.items, name)?;
        Some(ItemId(place as u32))
    }

    /// The item's name.
    pub fn name(&self, item: ItemId) -> &[u8]
        requires { item.0 < length self.now.items }
        ensures name { slice_get (map (λ declared. declared.name) self.now.items) item.0 ≡ Some result.now }
        ensures named { IsTrue (is_name result.now) }
    {
        name_at(&self.items, item.0 as usize)
    }

    /// The site that owns the item.
    pub fn site_of(&self, item: ItemId) -> SiteId
        requires { item.0 < length self.now.items }
        ensures { slice_get (map (λ declared. declared.site) self.now.items) item.0 ≡ Some result.0 }
    {
        declaration_at(&self.items, item.0 as usize).site
    }

    /// The item's declared value.
    pub fn declared(&self, item: ItemId) -> i64
        requires { item.0 < length self.now.items }
        ensures { slice_get (map (λ declared. declared.value) self.now.items) item.0 ≡ Some result }
    {
        declaration_at(&self.items, item.0 as usize).value
    }

    /// How many items there are, each declared with a value of 64 bits.
    pub fn len(&self) -> u32
        ensures count { result ≡ length self.now.items }
        ensures bound { result ≤ MAX_ITEMS }
        ensures values { All (λ item. FitsSigned w64 item.value) self.now.items }
    {
        count_of(&self.items) as u32
    }

    /// How many sites there are, 1 to [`MAX_SITES`]. Each item is at one of them.
    pub fn sites(&self) -> u8
        ensures count { result ≡ self.now.sites }
        ensures some { 1 ≤ result }
        ensures bound { result ≤ MAX_SITES }
        ensures homes { All (λ item. item.site < result) self.now.items }
    {
        self.sites
    }

    /// The limit of each journal, in bytes, [`MIN_JOURNAL`] to [`MAX_JOURNAL`].
    pub fn journal(&self) -> u64
        ensures limit { result ≡ self.now.journal }
        ensures least { MIN_JOURNAL ≤ result }
        ensures most { result ≤ MAX_JOURNAL }
    {
        self.journal
    }
}
