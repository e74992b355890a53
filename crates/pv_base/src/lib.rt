//! What every crate of polydb names: sites, transactions, items, the catalog of items, replies, and what a refusal is.
#![tactic(auto)]

mod buffers;
mod case;
mod catalog;
mod decimal;
mod entries;
mod exact;
mod failure;
mod faults;
mod grant;
mod history;
mod limits;
mod literal;
mod mode;
mod naming;
mod remembered;
mod reply;
mod txn;
mod want;

pub use buffers::buffer;
pub use case::{Case, meets};
pub use catalog::{Catalog, CatalogError, ItemId};
pub use decimal::push_number;
pub use exact::Exact;
pub use failure::{Failed, NoMemory};
pub use faults::{CaseError, NameError};
pub use grant::GrantId;
pub use history::History;
pub use limits::{
    HELD_NAMES, MAX_CALL, MAX_CLIENTS, MAX_DEPTH, MAX_INPUT, MAX_ITEMS, MAX_JOURNAL, MAX_LENGTH,
    MAX_LINE, MAX_LIVE_LINE, MAX_NAME, MAX_PROGRAM_ITEMS, MAX_PUMP, MAX_REQUESTS, MAX_SENT,
    MAX_SITES, MAX_WRITE_END, MIN_JOURNAL, NEVER_GIVEN, READ_NAMES, TICKS,
};
pub use literal::Literal;
pub use mode::Mode;
pub use naming::{continues_name, is_blank, is_name};
pub use remembered::Remembered;
pub use reply::{Decline, Reply};
pub use txn::{SiteId, TxnId, print_txn, push_txn};
pub use want::Want;
