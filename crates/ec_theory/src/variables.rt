//! The variables of a clause.
ghost use Rattle.std.specs.Prelude.{◌≡◌, ◌<◌, ◌≤◌, ◌+◌, IfOk, IfErr, OnOk, length};
ghost use Rattle.ec_theory.specs.Sign.{variables_of, number_of, signs_of, with_sign};
ghost use Rattle.ec_theory.specs.Reader.{left_of, shown};
ghost use Rattle.ec_theory.specs.declared.syntax_fault.SyntaxFault.TheVariants.{Memory};

use crate::cursor::Cursor;
use crate::sign::{Sign, Symbol, sign_of};
use crate::syntax_fault::SyntaxFault;
use crate::token_list::MOST_BYTES;
use indexmap::IndexSet;
use std::alloc::Global;
use std::marker::Model;

/// The different variables of a clause, in the order of their first appearance. The number of a
/// variable is its place here.
#[derive(Drop)]
pub struct Variables<'a> {
    names: IndexSet<&'a [u8]>,
}

impl<'a> Model for Variables<'a> {
    ghost use Rattle.std.specs.Prelude.{ℕ, List, map, length, ◌≤◌};
    ghost use Rattle.ec_theory.specs.declared.token_list.TheConstants.{MOST_BYTES};

    ghost Value = { List (List ℕ) };

    ghost view = { λ v. map (λ name. name.now) v.names.keys };

    ghost invariant = { λ v. length v.names.keys ≤ MOST_BYTES };
}

impl<'a> Variables<'a> {
    /// The variables from a cursor on, up to the next dot.
    pub fn of(alloc: Global, cursor: Cursor<'_, 'a>) -> Result<Variables<'a>, SyntaxFault>
        ensures ok { IfOk result (λ variables. variables ≡ variables_of (signs_of (left_of cursor.entry))) }
        ensures err { IfErr result (λ fault. fault ≡ Memory) }
    {
        let mut variables = Variables {
            names: IndexSet::new(alloc),
        };
        let tokens = cursor.rest;
        for token in tokens {
            let sign = sign_of(token);
            if sign.is_given(Symbol::Dot) {
                return Ok(variables);
            }
            variables.add(sign)?;
        }
        Ok(variables)
    }

    /// Adds a variable that is not yet there; any other token adds nothing.
    fn add(&mut self, sign: Sign<'a>) -> Result<(), SyntaxFault>
        requires { length self.old < MOST_BYTES }
        ensures added { OnOk result (self.new ≡ with_sign self.old (shown sign.entry)) }
        ensures err { IfErr result (λ fault. fault ≡ Memory) }
        ensures one { length self.new ≤ length self.old + 1 }
    {
        let Some(name) = sign.variable() else {
            return Ok(());
        };
        self.names.insert(name)?;
        Ok(())
    }

    /// The number of a variable of the clause.
    pub fn number(&self, name: &[u8]) -> u32
        ensures { result ≡ number_of self.now name.now }
    {
        self.names.get_index_of(name).unwrap_or(self.names.len()) as u32
    }
}
