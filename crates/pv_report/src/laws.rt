// A law of the texts of lines. The function does nothing: it states the law.
ghost use Rattle.std.specs.Prelude.{All, IsTrue};
ghost use Rattle.std.specs.List.{list_all};
ghost use Rattle.pv_base.specs.Catalog.{Declared};
ghost use Rattle.pv_base.specs.Name.{is_name};
ghost use Rattle.pv_model.specs.Text.{is_text_byte};
ghost use Rattle.pv_protocol.specs.LineText.{words_of};
ghost use Rattle.pv_protocol.specs.Lines.{Line};
ghost use Rattle.pv_report.specs.NamesOnlyItems.{NamesOnlyItems};

/// What a line prints as is text: each of its bytes is a tab, or from the space to `~`.
pub fn printed_lines_are_text()
    ensures { (catalog : Declared) (line : Line) → All (λ item. IsTrue (is_name item.name)) catalog.items → NamesOnlyItems catalog line →
        IsTrue (list_all is_text_byte (words_of catalog line)) }
{}
