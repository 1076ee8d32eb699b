//! Laws of the generator, each of them the contract of a function that does nothing.
ghost use Rattle.kn_generate.specs.Laws.{GeneratedTextsLoad};

/// The generated texts make a history.
pub fn generated_texts_load()
    ensures { GeneratedTextsLoad }
{}
