ghost use Rattle.std.specs.Prelude.{◌≡◌, ◌<◌, IsTrue, IfSome, option_map};
ghost use Rattle.ec_terms.specs.Binding.{no_values, with_value, values_of};
ghost use Rattle.ec_terms.specs.Term.{arg_of, is_argument};

use crate::ground::ArgRef;
use crate::limits::MOST_VARIABLES;
use std::marker::Model;

/// What the variables of a clause stand for: those below `MOST_VARIABLES`, each with its value or without
/// one. Contracts see the list of the places, and `values_of` is the function from variables to
/// values that it stands for. The bytes of each `Word` are a name.
#[derive(Drop)]
pub struct Binding<'a> {
    places: [Option<ArgRef<'a>>; MOST_VARIABLES],
}

impl<'a> Model for Binding<'a> {
    ghost use Rattle.std.specs.Prelude.{List, Option, map};
    ghost use Rattle.ec_terms.specs.declared.ground.Arg.{Arg};
    ghost use Rattle.ec_terms.specs.Binding.{shown, IsBinding};

    ghost Value = { List (Option Arg) };

    ghost view = { λ b. map shown b.places };

    ghost invariant = { λ b. IsBinding (map shown b.places) };
}

impl<'a> Binding<'a> {
    /// The binding in which no variable has a value.
    pub fn new() -> Binding<'a>
        ensures { values_of result ≡ no_values }
    {
        Binding {
            places: [None; MOST_VARIABLES],
        }
    }

    /// The same binding again.
    pub fn copied(&self) -> Binding<'a>
        ensures { result ≡ self.now }
    {
        Binding {
            places: self.places,
        }
    }

    /// The value of a variable, if it has one.
    pub fn get(&self, variable: u32) -> Option<ArgRef<'a>>
        requires { variable < MOST_VARIABLES }
        ensures value { option_map arg_of result ≡ values_of self.now variable }
        ensures named { IfSome result (λ arg. IsTrue (is_argument (arg_of arg))) }
    {
        self.places[variable as usize]
    }

    /// Gives a variable a value.
    pub fn set(&mut self, variable: u32, value: ArgRef<'a>)
        requires place { variable < MOST_VARIABLES }
        requires named { IsTrue (is_argument (arg_of value)) }
        ensures { values_of self.new ≡ with_value (values_of self.old) variable (arg_of value.entry) }
    {
        self.places[variable as usize] = Some(value);
    }
}
