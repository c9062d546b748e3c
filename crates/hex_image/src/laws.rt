ghost use Rattle.hex_image.specs.Laws.{OneSpelling, TextSpellsImage};

/// The text of a file spells the file bytes of its segments and its entry.
pub fn text_spells_image()
    ensures { TextSpellsImage }
{}

/// A text spells one map and one entry at most.
pub fn one_spelling()
    ensures { OneSpelling }
{}
