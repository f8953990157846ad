//! Worked event files, each a law that holds by computation alone.
ghost use Rattle.std.specs.Prelude.{◌≡◌, true, false, [], ◌∷◌, ◌++◌, codes, Ok, Err};
ghost use Rattle.ec_moment.specs.Number.{number_value};
ghost use Rattle.ec_axioms.specs.Examples.{event, move_home, plug_a, theory_a};
ghost use Rattle.ec_cert.specs.EventFile.{event_file, file_line_of, neither, nothing, one_event};
ghost use Rattle.ec_cert.specs.Examples.{lamps};
ghost use Rattle.ec_cert.specs.declared.event_fault.EventName.TheVariants.{Syntax, Duplicate};

/// A line is silent, or asserts an event, or has no place in an event file.
pub fn lines_are_read()
    ensures event { file_line_of number_value (codes "assert p 5 plug(a)") ≡ one_event (event (codes "p") 5 plug_a) }
    ensures empty { file_line_of number_value [] ≡ nothing }
    ensures comment { file_line_of number_value (codes "% a lamp") ≡ nothing }
    ensures retract { file_line_of number_value (codes "retract q") ≡ neither }
    ensures quit { file_line_of number_value (codes "quit") ≡ neither }
    ensures prefix { file_line_of number_value (codes "@0 assert p 5 plug(a)") ≡ neither }
    ensures no_term { file_line_of number_value (codes "assert p 5 plug(") ≡ neither }
{}

/// A file tells its events in their order; the first line that is refused is told with its number.
pub fn files_are_read()
    ensures empty { event_file lamps true [] ≡ Ok [] }
    ensures in_order { event_file lamps true (codes "assert p 5 plug(a)" ++ 10 ∷ 10 ∷ codes "assert m 3 move(bob,home)")
        ≡ Ok (event (codes "m") 3 move_home ∷ event (codes "p") 5 plug_a ∷ []) }
    ensures syntax { event_file lamps true (codes "assert p 5 plug(a)" ++ 10 ∷ codes "retract p" ++ 10 ∷ []) ≡ Err (2, Syntax) }
    ensures duplicate { event_file lamps false (codes "assert p 5 plug(a)" ++ 10 ∷ codes "%" ++ 13 ∷ 10 ∷ codes "assert p 6 plug(a)" ++ 10 ∷ codes "quit")
        ≡ Err (3, Duplicate) }
{}
