// Laws on the spellings of polyvalues.
ghost use Rattle.std.specs.Prelude.{◌≡◌, ◌↔◌, ℕ, ℤ, List, ◌++◌, length};
ghost use Rattle.pv_base.specs.Answer.{HasOneAnswer};
ghost use Rattle.pv_base.specs.BigEndian.{AreBytes};
ghost use Rattle.pv_base.specs.Polyvalue.{Case};
ghost use Rattle.pv_format.specs.FirstFault.{TreeFault};
ghost use Rattle.pv_format.specs.Length as size;
ghost use Rattle.pv_format.specs.PolyvalueSpelling.{SpellsPolyvalue, BeginsWith};
ghost use Rattle.pv_format.specs.Range.{IsPolyvalueInRange};

/// A polyvalue has one spelling at most.
pub fn one_polyvalue_spelling()
    ensures { (cases : List (Case ℤ)) (bytes others : List ℕ) → SpellsPolyvalue cases bytes → SpellsPolyvalue cases others → bytes ≡ others }
{}

/// Cases have a spelling exactly where they are a polyvalue as a site may hold it, and its sites and numbers are in range.
pub fn some_polyvalue_spelling()
    ensures { (cases : List (Case ℤ)) → ((bytes : List ℕ) × SpellsPolyvalue cases bytes) ↔ IsPolyvalueInRange cases }
{}

/// Bytes begin with one polyvalue at most. So they spell one at most, and no spelling is the beginning of a longer one.
pub fn one_polyvalue()
    ensures { (cases others : List (Case ℤ)) (front other rest more : List ℕ) → SpellsPolyvalue cases front → SpellsPolyvalue others other →
        front ++ rest ≡ other ++ more → (cases ≡ others) × (rest ≡ more) }
{}

/// How many bytes spell a polyvalue.
pub fn polyvalue_length()
    ensures { (cases : List (Case ℤ)) (bytes : List ℕ) → SpellsPolyvalue cases bytes → length bytes ≡ size.polyvalue_length cases }
{}

/// Bytes begin with exactly one polyvalue, or have exactly one first fault.
pub fn one_polyvalue_answer()
    ensures { (bytes : List ℕ) (place : ℕ) → AreBytes bytes →
        HasOneAnswer (λ (read : List (Case ℤ) × List ℕ). BeginsWith read.0 read.1 bytes) (TreeFault place bytes) }
{}
