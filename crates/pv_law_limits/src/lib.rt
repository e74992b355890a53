//! The limits number by number, and the words that name no item. Contracts and definitions cite the code's own constants, so what these are is said here.
//! The functions do nothing: each states a law.
#![tactic(auto)]

ghost use Rattle.std.specs.Prelude.{◌≡◌, ◌^◌, ◌-◌, ℕ, List, [], ◌∷◌, codes};
ghost use Rattle.std.specs.List.{list_any};
ghost use Rattle.std.specs.Str.{bytes_eq};
ghost use Rattle.pv_base.specs.Name.{is_keyword};
ghost use Rattle.pv_base.specs.declared.limits.TheConstants.{HELD_NAMES, MAX_CALL, MAX_CLIENTS, MAX_DEPTH, MAX_INPUT, MAX_ITEMS, MAX_JOURNAL, MAX_LENGTH, MAX_LINE, MAX_LIVE_LINE, MAX_NAME, MAX_PROGRAM_ITEMS, MAX_PUMP, MAX_REQUESTS, MAX_SENT, MAX_SITES, MAX_WRITE_END, MIN_JOURNAL, NEVER_GIVEN, READ_NAMES, TICKS};
ghost use Rattle.pv_script.specs.declared.lines.TheConstants.{MAX_SCHEDULE};

/// Each limit that definitions and contracts cite is this number.
pub fn limits_are_these()
    ensures sites { MAX_SITES ≡ 16 }
    ensures items { MAX_ITEMS ≡ 1024 }
    ensures program_items { MAX_PROGRAM_ITEMS ≡ 16 }
    ensures name { MAX_NAME ≡ 16 }
    ensures line { MAX_LINE ≡ 1000 }
    ensures live_line { MAX_LIVE_LINE ≡ 990 }
    ensures clients { MAX_CLIENTS ≡ 8 }
    ensures requests { MAX_REQUESTS ≡ 1000 }
    ensures depth { MAX_DEPTH ≡ 32 }
    ensures input { MAX_INPUT ≡ 2 ^ 24 }
    ensures pump { MAX_PUMP ≡ 1000000 }
    ensures call { MAX_CALL ≡ 1000 }
    ensures least_journal { MIN_JOURNAL ≡ 32 }
    ensures journal { MAX_JOURNAL ≡ 2 ^ 32 }
    ensures length { MAX_LENGTH ≡ 2 ^ 62 }
    ensures write_end { MAX_WRITE_END ≡ 2 ^ 40 }
    ensures sent { MAX_SENT ≡ 2 ^ 28 }
    ensures read_names { READ_NAMES ≡ 11 }
    ensures held_names { HELD_NAMES ≡ 12 }
    ensures ticks { TICKS ≡ 3 }
    ensures never_given { NEVER_GIVEN ≡ 2 ^ 32 - 1 }
    ensures schedule { MAX_SCHEDULE ≡ 2 ^ 32 - 2 }
{}

/// The words that name no item are these ten.
#[tactic(auto, unfolding(pv_base::specs::Name::is_keyword))]
pub fn keywords_are_these()
    ensures { (text : List ℕ) → is_keyword text ≡ list_any (bytes_eq text)
        (codes "or" ∷ codes "and" ∷ codes "not" ∷ codes "min" ∷ codes "max" ∷ codes "if" ∷ codes "else" ∷ codes "require" ∷ codes "return" ∷ codes "certain" ∷ []) }
{}
