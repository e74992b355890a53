// A number and its bytes determine each other. The functions here do nothing: each states a law.
ghost use Rattle.std.specs.Prelude.{◌≡◌, ◌<◌, ◌^◌, ℕ, ℤ, List, length};
ghost use Rattle.std.specs.Int.{w64};
ghost use Rattle.std.specs.Int.RustNames.{FitsSigned};
ghost use Rattle.pv_base.specs.BigEndian.{big_endian, number_of, twos_complement, AreBytes};

/// A number that fits so many bytes is read back from them.
pub fn one_number()
    ensures { (size number : ℕ) → number < 256 ^ size → number_of (big_endian size number) ≡ number }
{}

/// Bytes are those of the number that is read from them, so a number has one list of bytes of each length.
pub fn one_spelling()
    ensures { (bytes : List ℕ) → AreBytes bytes → big_endian (length bytes) (number_of bytes) ≡ bytes }
{}

/// Any bytes are a number that fits so many.
pub fn some_number()
    ensures { (bytes : List ℕ) → AreBytes bytes → number_of bytes < 256 ^ length bytes }
{}

/// Two signed numbers of 64 bits with one two's complement are the same.
pub fn one_signed_number()
    ensures { (number other : ℤ) → FitsSigned w64 number → FitsSigned w64 other → twos_complement number ≡ twos_complement other → number ≡ other }
{}

/// Each number of 64 bits is the two's complement of a signed one.
pub fn signed_numbers()
    ensures { (number : ℕ) → number < 2 ^ 64 → (signed : ℤ) × FitsSigned w64 signed × (twos_complement signed ≡ number) }
{}

/// The two's complement of a signed number of 64 bits fits 64 bits.
pub fn fitting_complement()
    ensures { (number : ℤ) → FitsSigned w64 number → twos_complement number < 2 ^ 64 }
{}
