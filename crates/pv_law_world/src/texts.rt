// How lines are spelled.
ghost use Rattle.std.specs.Prelude.{◌≡◌, map};
ghost use Rattle.pv_law_step.specs.Examples.{bank};
ghost use Rattle.pv_law_world.specs.Spellings.{examples};
ghost use Rattle.pv_protocol.specs.LineText.{words_of};

/// Lines of each kind have their words.
pub fn lines_are_spelled()
    ensures { map (λ example. words_of bank.catalog example.line) examples ≡ map (λ example. example.text) examples }
{}
