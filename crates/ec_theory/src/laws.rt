//! Laws of the tokens, of the grammar and of the walk, each the contract of a function.
ghost use Rattle.std.specs.Prelude.{◌≡◌, ◌↔◌, ℕ, List, Some, None, Ok, map};
ghost use Rattle.ec_check.specs.Numbering.{IsNumbered};
ghost use Rattle.ec_terms.specs.declared.theory.Theory.{Theory};
ghost use Rattle.ec_theory.specs.declared.place.Place.{Place};
ghost use Rattle.ec_theory.specs.Lexeme.{Lexeme, Lexemes};
ghost use Rattle.ec_theory.specs.Tokens.{start, place_behind, tokens_of};
ghost use Rattle.ec_theory.specs.CutText.{IsCut};
ghost use Rattle.ec_theory.specs.Sign.{sign_of};
ghost use Rattle.ec_theory.specs.Walk.{Spot, Beginning, LeadsBack, walk, stop_of};
ghost use Rattle.ec_theory.specs.Reading.{Reads, IsReadable, GoesWrongAt};

/// A text that has tokens is blanks, comments and its tokens, joined in order: each token stands at its
/// place, and no token could be longer there.
pub fn cut_law()
    ensures text { (bytes : List ℕ) (list : Lexemes) → tokens_of bytes ≡ Ok list → IsCut start bytes list.tokens }
    ensures end { (bytes : List ℕ) (list : Lexemes) → tokens_of bytes ≡ Ok list → list.end ≡ place_behind start bytes }
{}

/// A list of tokens has at most one reading.
#[tactic(auto, using(crate::proofs::OneReading::reading_same))]
pub fn one_reading_law()
    ensures { (tokens : Lexemes) (a b : Theory) → Reads tokens a → Reads tokens b → a ≡ b }
{}

/// What a list of tokens reads as is numbered, so that a text that has a reading is accepted exactly when its theory has no fault.
#[tactic(auto, using(crate::proofs::NumberedReadings::reads_numbered))]
pub fn numbered_reading_law()
    ensures { (tokens : Lexemes) (theory : Theory) → Reads tokens theory → IsNumbered theory }
{}

/// The walk over a list of tokens ends at a clause's beginning, and so stops nowhere, exactly when the
/// list has a reading.
pub fn reading_law()
    ensures ends { (tokens : List Lexeme) → (walk Beginning (map sign_of tokens) ≡ Some Beginning) ↔ IsReadable tokens }
    ensures stops_nowhere { (tokens : Lexemes) → (stop_of Beginning tokens ≡ None) ↔ IsReadable tokens.tokens }
{}

/// The walk stops exactly where the tokens go wrong: at the first token with which the tokens so far
/// begin no readable list, or at the end, when all of them begin one and are none.
pub fn stop_law()
    ensures { (tokens : Lexemes) (place : Place) → (stop_of Beginning tokens ≡ Some place) ↔ GoesWrongAt tokens place }
{}

/// From every place within a clause some tokens lead back to a clause's beginning.
#[tactic(auto, using(crate::proofs::WayBack::way_back))]
pub fn way_back_law()
    ensures { (spot : Spot) → LeadsBack spot }
{}
