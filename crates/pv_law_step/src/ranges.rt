// What a site holds, sends and records is in range.
ghost use Rattle.std.specs.Int.RustNames.{FitsSigned};
ghost use Rattle.std.specs.Int.{w64};
ghost use Rattle.std.specs.List.{Contains};
ghost use Rattle.std.specs.Prelude.{◌++◌, ◌∷◌, ◌≡◌, [], ◌<◌, ◌≤◌, ℕ, ℤ, All, IsTrue, length, List};
ghost use Rattle.pv_base.specs.Catalog.{Declared};
ghost use Rattle.pv_base.specs.Named.{names_of};
ghost use Rattle.pv_base.specs.declared.reply.Reply.TheVariants.{Value};
ghost use Rattle.pv_base.specs.declared.limits.TheConstants.{HELD_NAMES, MAX_ITEMS, MAX_SITES};
ghost use Rattle.pv_format.specs.Range.{AreWantsInRange, IsPolyvalueWithin, IsRecordWithin};
ghost use Rattle.pv_format.specs.MessageSpelling.{SpellsEnvelope};
ghost use Rattle.pv_format.specs.Record.{Record};
ghost use Rattle.pv_format.specs.RecordSpelling.{SpellsRecord};
ghost use Rattle.pv_model.specs.Meaning.{Row, exec};
ghost use Rattle.pv_model.specs.Plan.{participants_of, wants_of};
ghost use Rattle.pv_model.specs.Syntax.{Program};
ghost use Rattle.pv_protocol.specs.Here.{Here};
ghost use Rattle.pv_protocol.specs.Shown.{shown};
ghost use Rattle.pv_protocol.specs.Sound.{IsInputInRange, IsSentInRange, IsSetupInRange, IsHereInRange};
ghost use Rattle.pv_protocol.specs.Start.{site_start, starts};
ghost use Rattle.pv_protocol.specs.State.{Input, Running, Setup};
ghost use Rattle.pv_protocol.specs.Step.{after_step, records_after, step_on};
ghost use Rattle.pv_protocol.specs.WellFormed.{CanRun, has_small_numbers};
ghost use Rattle.pv_protocol.specs.Width.{IsNarrow};

/// A program of numbers of 64 bits leaves values of 64 bits where it finds such values.
pub fn programs_stay_in_range()
    ensures { (program : Program) (rows : List Row) → IsTrue (has_small_numbers program) → All (λ row. FitsSigned w64 row.value) rows →
        All (λ row. FitsSigned w64 row.value) (exec program rows).rows }
{}

/// What such a program replies there has 64 bits, where it is a number.
pub fn replies_are_in_range()
    ensures { (program : Program) (rows : List Row) (value : ℤ) → IsTrue (has_small_numbers program) → All (λ row. FitsSigned w64 row.value) rows →
        (exec program rows).reply ≡ Value value → FitsSigned w64 value }
{}

/// Shown values are in range where the records are, and name no more outcomes than a polyvalue may.
pub fn shown_values_are_in_range()
    ensures { (sites : ℕ) (catalog : Declared) (records : List Record) (item : ℕ) → All (λ item. FitsSigned w64 item.value) catalog.items →
        All (IsRecordWithin sites) records → length (names_of (shown catalog records item)) ≤ HELD_NAMES →
        IsPolyvalueWithin sites (shown catalog records item) }
{}

/// What a program wants of each participant is in range, and the participants are sites of the catalog.
pub fn plans_are_in_range()
    ensures { (catalog : Declared) (program : Program) (site : ℕ) → length catalog.items ≤ MAX_ITEMS →
        All (λ item. item.site < catalog.sites) catalog.items → CanRun catalog program → Contains (participants_of program catalog.items) site →
        (site < catalog.sites) × AreWantsInRange (wants_of program catalog.items site) }
{}

/// What a site sends is in range where what it holds and what it is given is: its receiver is one of the sites.
pub fn sends_are_in_range()
    ensures { (sites : ℕ) (here : Here) (input : Input) → IsHereInRange sites here → IsInputInRange sites here input → All (IsSentInRange sites here) (step_on here input).sends }
{}

/// What a site holds stays in range where what it is given is.
pub fn steps_stay_sound()
    ensures { (sites : ℕ) (here : Here) (input : Input) → IsHereInRange sites here → IsInputInRange sites here input → IsHereInRange sites (after_step here (step_on here input)) }
{}

/// A site that starts is sound where its records are in range and narrow.
pub fn starts_are_sound()
    ensures { (sites : ℕ) (setup : Setup) → setup.catalog.sites ≤ sites → sites ≤ MAX_SITES → (me surplus : ℕ) (records : List Record) → IsSetupInRange setup → me < setup.catalog.sites → All (IsRecordWithin sites) records →
        IsNarrow setup.held_names setup.catalog me records → (running : Running) (new : Record) → site_start setup surplus records ≡ starts running new →
        IsHereInRange sites (record { me = me; setup = setup; records = records ++ new ∷ []; surplus = surplus; running = running }) }
{}

/// Each message that a site sends has a spelling, where what it holds and what it is given is in range.
pub fn sends_are_spelled()
    ensures { (sites : ℕ) (here : Here) (input : Input) → IsHereInRange sites here → IsInputInRange sites here input →
        All (λ sent. (bytes : List ℕ) × SpellsEnvelope (record { from = here.me; to = sent.to; message = sent.message }) bytes) (step_on here input).sends }
{}

/// The records of a site have spellings, also the one that a step appends.
pub fn records_are_spelled()
    ensures { (sites : ℕ) (here : Here) (input : Input) → IsHereInRange sites here → IsInputInRange sites here input →
        All (λ kept. (bytes : List ℕ) × SpellsRecord kept bytes) (records_after here.records (step_on here input)) }
{}
