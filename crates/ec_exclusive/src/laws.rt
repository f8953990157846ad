//! The laws of neighbours, each the contract of a function that does nothing.
ghost use Rattle.ec_terms.specs.declared.theory.Theory.{Theory};
ghost use Rattle.ec_exclusive.specs.Neighbours.{ReadTermsAlone};

/// Neighbours are read off the terms of the added properties alone: whatever else a table keeps, and however often
/// its properties are mentioned, they stay the neighbours.
pub fn neighbours_read_terms_alone()
    ensures { (theory : Theory) → ReadTermsAlone theory }
{}
