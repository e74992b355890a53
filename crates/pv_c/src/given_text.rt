// Texts as C gives them.
ghost use Rattle.std.specs.Prelude.{◌≡◌};

/// The text as C gave it. Of one without bytes the pointer is read nowhere beyond this, so C may give NULL for it.
pub fn given(text: &[u8]) -> &[u8]
    ensures { result.now ≡ text.now }
{
    if text.is_empty() {
        return b"";
    }
    text
}
