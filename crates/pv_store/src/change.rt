// Changes that are planned.
ghost use Rattle.std.specs.Prelude.{◌≡◌};
ghost use Rattle.pv_replay.specs.Values.{record_of};

use crate::named::NewValue;
use pv_replay::Record;
use std::marker::Model;

/// One more record, and what it changes. It is planned on a store, takes its memory then, and is applied to the same contents.
#[derive(Debug, Drop)]
pub struct StoreChange {
    /// The record.
    pub(crate) record: Record,
    /// The new values of the items that it changes.
    pub(crate) values: Vec<NewValue>,
}

impl Model for StoreChange {
    ghost use Rattle.pv_replay.specs.Values.{record_of};
    ghost use Rattle.pv_store.specs.Kept.{Planned};

    ghost Value = { Planned };

    ghost view = { λ change. record { appended = record_of change.record; values = change.values.items } };
}

impl StoreChange {
    /// The record, as it is to be written to the journal before the change is applied.
    pub fn record(&self) -> &Record
        ensures { record_of result.now ≡ self.now.appended }
    {
        &self.record
    }
}
