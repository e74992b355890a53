//! A site's values by its records: what its items are shown as, which transactions are prepared, and which outcomes are known.
#![tactic(auto)]

mod change;
mod declared;
mod dependents;
mod error;
mod load;
mod named;
mod note;
mod outcomes;
mod places;
mod promise;
mod promises;
mod settling;
mod standing;
mod store;
mod values;
mod writes;

pub use change::StoreChange;
pub use error::StoreError;
pub use store::Store;
