// Laws on program texts: each is one program over a catalog, or is refused in one way.
ghost use Rattle.std.specs.Prelude.{◌≡◌, ◌⊎◌, ◌↔◌, ℕ, List, [], ◌∷◌, true};
ghost use Rattle.pv_base.specs.Catalog.{Declared};
ghost use Rattle.pv_base.specs.Name.{is_name};
ghost use Rattle.pv_model.specs.ProgramText.{IsProgramText, Refusal, IsRefused};
ghost use Rattle.pv_model.specs.Syntax.{Program};
ghost use Rattle.pv_model.specs.Tokens.{HasTokens, Token, name};

/// A text is one program over a catalog at most.
pub fn one_program()
    ensures { (catalog : Declared) (text : List ℕ) (program other : Program) → IsProgramText catalog text program → IsProgramText catalog text other → program ≡ other }
{}

/// A text is refused in one way at most.
pub fn one_refusal()
    ensures { (catalog : Declared) (text : List ℕ) (refusal other : Refusal) → IsRefused catalog text refusal → IsRefused catalog text other → refusal ≡ other }
{}

/// A program isn't refused.
pub fn no_refusal()
    ensures { (catalog : Declared) (text : List ℕ) (program : Program) (refusal : Refusal) → IsProgramText catalog text program → IsRefused catalog text refusal → ⊥ }
{}

/// Each text is a program over a catalog or is refused.
pub fn some_answer()
    ensures { (catalog : Declared) (text : List ℕ) → ((program : Program) × IsProgramText catalog text program) ⊎ ((refusal : Refusal) × IsRefused catalog text refusal) }
{}

/// An accepted name is one token of a program's text, and has no other tokens.
pub fn name_is_token()
    ensures { (text : List ℕ) (tokens : List (ℕ × Token)) → is_name text ≡ true → HasTokens text tokens ↔ (tokens ≡ (1, name text) ∷ []) }
{}
