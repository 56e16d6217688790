ghost use Rattle.cht_ids.specs.Laws.{TextsSpellNumbers, NumbersHaveOneText, TextsHaveOneRef};

/// A law: the text of a number, signed or not, spells that number.
pub fn texts_spell_numbers()
    ensures { TextsSpellNumbers }
{}

/// A law: the text that `write_number` gives is the only one of its number without needless signs and zeros.
pub fn numbers_have_one_text()
    ensures { NumbersHaveOneText }
{}

/// A law: `write_ref` and `read_ref` are inverse, since no two references have the same text.
pub fn texts_have_one_ref()
    ensures { TextsHaveOneRef }
{}
