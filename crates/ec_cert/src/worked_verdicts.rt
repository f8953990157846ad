//! Worked proofs and verdicts, each a law that holds by computation alone. The number of lines is
//! `decimal`, which does not compute; times are written by `short_number`, which does.
ghost use Rattle.std.specs.Prelude.{◌≡◌, true, false, [], ◌∷◌, ◌++◌, pos, codes, decimal};
ghost use Rattle.ec_axioms.specs.Examples.{lit_a, short_number, theory_a};
ghost use Rattle.ec_cone.specs.Examples.{moved_plugged_and_pushed};
ghost use Rattle.ec_cert.specs.Verdicts.{bad_line, proof_text, verdict_of};
ghost use Rattle.ec_cert.specs.declared.verdict.Verdict.TheVariants.{Yes, No, Bad};

/// A lamp that is pushed at 10 holds as lit at 11, and not yet at 10.
pub fn proofs_are_written()
    ensures lit { proof_text theory_a moved_plugged_and_pushed short_number lit_a (pos 11)
        ≡ codes "certificate lit(a) 11" ++ 10 ∷ codes "p 1" ++ 10 ∷ codes "q 10" ++ 10 ∷ codes "end " ++ (decimal 2 ++ 10 ∷ []) }
    ensures not_yet { proof_text theory_a moved_plugged_and_pushed short_number lit_a (pos 10) ≡ codes "none" ++ 10 ∷ [] }
{}

/// The line at which a certificate leaves its label: that of the first other byte; where it is a
/// first part of the label, the line in which it ends; where the label is a first part of it, one
/// line behind the label's last.
pub fn bad_lines_are_found()
    ensures empty { bad_line [] (codes "a" ++ 10 ∷ codes "b" ++ 10 ∷ []) ≡ 1 }
    ensures other { bad_line (codes "a" ++ 10 ∷ codes "c" ++ 10 ∷ []) (codes "a" ++ 10 ∷ codes "b" ++ 10 ∷ []) ≡ 2 }
    ensures other_end { bad_line (codes "a" ++ 13 ∷ 10 ∷ codes "b" ++ 10 ∷ []) (codes "a" ++ 10 ∷ codes "b" ++ 10 ∷ []) ≡ 1 }
    ensures cut_off { bad_line (codes "a" ++ 10 ∷ codes "b") (codes "a" ++ 10 ∷ codes "b" ++ 10 ∷ []) ≡ 2 }
    ensures one_more { bad_line (codes "a" ++ 10 ∷ codes "b" ++ 10 ∷ codes "c") (codes "a" ++ 10 ∷ codes "b" ++ 10 ∷ []) ≡ 3 }
{}

/// A certificate that is the label is answered by whether the property holds; any other one is bad.
pub fn verdicts_are_told()
    ensures holds { verdict_of (codes "a" ++ 10 ∷ []) (codes "a" ++ 10 ∷ []) true ≡ Yes }
    ensures does_not { verdict_of (codes "a" ++ 10 ∷ []) (codes "a" ++ 10 ∷ []) false ≡ No }
    ensures bad { verdict_of (codes "b" ++ 10 ∷ []) (codes "a" ++ 10 ∷ []) true ≡ Bad 1 }
{}
