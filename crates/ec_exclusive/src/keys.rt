//! The keys of the groups in which a property stands, and of those in which its neighbours stand.
ghost use Rattle.std.specs.Prelude.{◌≡◌, ◌<◌, ◌++◌, IsTrue, IfOk, IfSome, OnOk, option_map};
ghost use Rattle.ec_terms.specs.Binding.{is_small_place, stands_at, stands_in, values_of, IsSmall};
ghost use Rattle.ec_terms.specs.Matchable.{IsMatchable, IsMatchableExclusive};
ghost use Rattle.ec_terms.specs.Term.{arg_of, ground_of, is_argument, names_are_names};
ghost use Rattle.ec_exclusive.specs.Keys.{key_if_fits, keys_from, shared_value as shared, shared_term as the_shared_term, side_key as the_key};
ghost use Rattle.ec_exclusive.specs.Forms.{texts_of};

use ec_lists::NoMemory;
use ec_terms::{
    ArgRef, ArgRefs, Binding, Exclusive, GroundRef, PatArg, Pattern, Theory, matches, text,
};
use std::alloc::Global;

/// Whether a place of a pattern is this variable.
fn is_variable(place: &PatArg, variable: u32) -> bool
    ensures { result ≡ stands_at variable place.now }
{
    match place {
        PatArg::Var(other) => *other == variable,
        PatArg::Any | PatArg::Fixed(_) => false,
    }
}

/// Whether a variable stands in a pattern.
fn has_variable(pattern: &Pattern, variable: u32) -> bool
    ensures { result ≡ stands_in variable pattern.now }
{
    pattern
        .args
        .as_slice()
        .iter()
        .any(|place| is_variable(place, variable))
}

/// The value of a place that is a variable of the other side too.
fn shared_value<'a>(binding: &Binding<'a>, other: &Pattern, place: &PatArg) -> Option<ArgRef<'a>>
    requires { IsTrue (is_small_place place.now) }
    ensures value { option_map arg_of result ≡ shared (values_of binding.now) other.now place.now }
    ensures named { IfSome result (λ arg. IsTrue (is_argument (arg_of arg))) }
{
    match place {
        PatArg::Var(variable) => {
            if has_variable(other, *variable) {
                binding.get(*variable)
            } else {
                None
            }
        }
        PatArg::Any | PatArg::Fixed(_) => None,
    }
}

/// The term of the values that both sides of a declaration share.
fn shared_term<'a>(declaration: &'a Exclusive, binding: &Binding<'a>) -> GroundRef<'a>
    requires { IsMatchableExclusive declaration.now }
    ensures term { ground_of result ≡ the_shared_term declaration.now (values_of binding.now) }
    ensures named { IsTrue (names_are_names (ground_of result)) }
{
    let mut args = ArgRefs::new();
    for place in declaration.left.args.as_slice() {
        if let Some(arg) = shared_value(binding, &declaration.right, place) {
            args.push(arg);
        }
    }
    GroundRef {
        name: declaration.left.name.as_bytes(),
        args,
    }
}

/// The key of a side of the declaration of this number, under the binding of that side.
pub(crate) fn side_key(
    alloc: Global,
    i: usize,
    side: u8,
    declaration: &Exclusive,
    binding: &Binding<'_>,
) -> Result<Vec<u8>, NoMemory>
    requires { IsMatchableExclusive declaration.now }
    ensures { IfOk result (λ key. key.items ≡ the_key i side declaration.now (values_of binding.now)) }
{
    let shared = text(&shared_term(declaration, binding));
    let mut key = Vec::from_slice(alloc, shared.as_bytes())?;
    key.push(side)?;
    key.push((i % 256) as u8)?;
    Ok(key)
}

/// Adds the key of a side, if the pattern of that side fits the term.
fn add_key(
    alloc: Global,
    keys: &mut Vec<Vec<u8>>,
    i: usize,
    side: u8,
    declaration: &Exclusive,
    pattern: &Pattern,
    term: &GroundRef<'_>,
) -> Result<(), NoMemory>
    requires matchable { IsMatchableExclusive declaration.now }
    requires small { IsSmall pattern.now }
    requires named { IsTrue (names_are_names (ground_of term.now)) }
    ensures { OnOk result (texts_of keys.new.items ≡ texts_of keys.old.items ++ key_if_fits i side declaration.now pattern.now (ground_of term.now)) }
{
    if let Some(binding) = matches(pattern, term) {
        keys.push(side_key(alloc, i, side, declaration, &binding)?)?;
    }
    Ok(())
}

/// The keys of a term. Each has `left` for a side where the left pattern fits, and `right` where the right one does: 0 and
/// 1 for the groups in which the term stands, 1 and 0 for those in which its neighbours do.
pub(crate) fn keys_of(
    alloc: Global,
    theory: &Theory,
    term: &GroundRef<'_>,
    left: u8,
    right: u8,
) -> Result<Vec<Vec<u8>>, NoMemory>
    requires matchable { IsMatchable theory.now }
    requires named { IsTrue (names_are_names (ground_of term.now)) }
    ensures { IfOk result (λ keys. texts_of keys.items ≡ keys_from left right 0 theory.now.exclusives (ground_of term.now)) }
{
    let mut keys = Vec::new(alloc);
    for (i, declaration) in theory.exclusives.as_slice().iter().enumerate() {
        add_key(
            alloc,
            &mut keys,
            i,
            left,
            declaration,
            &declaration.left,
            term,
        )?;
        add_key(
            alloc,
            &mut keys,
            i,
            right,
            declaration,
            &declaration.right,
            term,
        )?;
    }
    Ok(keys)
}
