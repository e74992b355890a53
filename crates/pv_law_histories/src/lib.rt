//! The law of histories: what threads let sites take in, each in an order of its own, is one run of the world, in the order of stamps. The
//! functions do nothing: each states a law.
#![tactic(auto)]

mod examples;

ghost use Rattle.std.specs.Prelude.{◌≡◌, ℕ, ◌+◌, ◌<◌, max, List, [], ◌∷◌, ◌++◌, length, All};
ghost use Rattle.pv_law_histories.specs.Course.{AreSteps, IsStep, course, left_by};
ghost use Rattle.pv_law_histories.specs.Fitting.{CanAllBeDone, FitTogether, HasRisingStamps, history_of};
ghost use Rattle.pv_law_histories.specs.History.{Stamped};
ghost use Rattle.pv_law_histories.specs.Merge.{Moment, IsMerge, events_of_merge, lines_of_merge, merge};
ghost use Rattle.pv_law_histories.specs.Posting.{AreStamped, PassMessages, kept_by, last_stamp, parcels_to, posted_to, stamp_with};
ghost use Rattle.pv_protocol.specs.Run.{printed, run, world_after};
ghost use Rattle.pv_protocol.specs.State.{Setup, Site};
ghost use Rattle.pv_protocol.specs.WellFormed.{IsWellFormed};
ghost use Rattle.pv_protocol.specs.World.{first_site, opening, site_at};

pub use examples::{fault_takes_a_site_down, one_request_is_served, two_sites_step_at_one_stamp};

/// The merge of histories that fit together is a run of the world: its events print the moments' lines, and leave each site where the site's
/// own history leaves it.
pub fn merged_histories_are_a_run()
    ensures lines { (setup : Setup) (histories : List (List Stamped)) (moments : List Moment) → FitTogether setup histories → IsMerge histories moments →
        printed setup (events_of_merge moments) ≡ lines_of_merge moments }
    ensures sites { (setup : Setup) (histories : List (List Stamped)) (moments : List Moment) → FitTogether setup histories → IsMerge histories moments →
        (n : ℕ) → n < setup.catalog.sites →
        site_at (world_after (opening setup) (run setup (opening setup) (events_of_merge moments))) n ≡ course setup n first_site (history_of histories n) }
{}

/// Histories at rising stamps have one merge.
pub fn histories_have_one_merge()
    ensures there { (histories : List (List Stamped)) → ((n : ℕ) → n < length histories → HasRisingStamps (history_of histories n)) → IsMerge histories (merge histories) }
    ensures only { (histories : List (List Stamped)) (moments others : List Moment) → IsMerge histories moments → IsMerge histories others → moments ≡ others }
{}

/// Where all that clients asked for can run, the events of the merge are well formed, so that all that is promised of runs is promised of it.
pub fn merged_events_are_well_formed()
    ensures { (setup : Setup) (histories : List (List Stamped)) (moments : List Moment) → FitTogether setup histories → IsMerge histories moments →
        CanAllBeDone setup.catalog histories → All (IsWellFormed setup.catalog) (events_of_merge moments) }
{}

/// Histories of sites that pass messages on fit together: it is enough that each site makes its own steps, stamps what it takes in, and takes in
/// what was posted to it.
pub fn passed_messages_fit_together()
    ensures { (setup : Setup) (histories : List (List Stamped)) → PassMessages setup histories → FitTogether setup histories }
{}

/// A history grows entry by entry: what one more entry has to be, and what it adds to where its site stands and to what the site has posted.
pub fn histories_grow()
    ensures steps { (setup : Setup) (n : ℕ) (site : Site) (entries : List Stamped) (entry : Stamped) → AreSteps setup n site entries →
        IsStep setup n (course setup n site entries) entry → AreSteps setup n site (entries ++ entry ∷ []) }
    ensures course { (setup : Setup) (n : ℕ) (site : Site) (entries : List Stamped) (entry : Stamped) →
        course setup n site (entries ++ entry ∷ []) ≡ left_by setup n (course setup n site entries) entry }
    ensures stamps { (last : ℕ) (entries : List Stamped) (entry : Stamped) → AreStamped last entries →
        entry.stamp ≡ max (last_stamp last entries) (stamp_with entry.intake) + 1 → AreStamped last (entries ++ entry ∷ []) }
    ensures posted { (setup : Setup) (n to : ℕ) (site : Site) (entries : List Stamped) (entry : Stamped) →
        posted_to setup n to site (entries ++ entry ∷ []) ≡
        posted_to setup n to site entries ++ parcels_to to entry.stamp 0 (kept_by setup n (course setup n site entries) entry) }
{}
