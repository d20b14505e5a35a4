//! Laws over the parts of valid texts, each as the clause of a function that does nothing.
ghost use Rattle.uv_grammar.specs.Laws.{PartsAreTheText};

/// The parts of a valid text, written in order with their delimiters, are the text.
pub fn parts_are_the_text()
    ensures { PartsAreTheText }
{}
