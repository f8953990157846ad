//! The laws of texts, each the contract of a function that does nothing.
ghost use Rattle.ec_terms.specs.TextLaws.{IsReadBack, IsReadInFront, IsTextFaithful};

/// The canonical text of a term is read back as that term: at the front of a longer text, and whole.
pub fn texts_are_read_back()
    ensures front { IsReadInFront }
    ensures whole { IsReadBack }
{}

/// Different terms have different texts.
pub fn texts_differ()
    ensures { IsTextFaithful }
{}
