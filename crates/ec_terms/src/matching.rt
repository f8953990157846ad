ghost use Rattle.std.specs.Prelude.{◌≡◌, ◌↔◌, ◌||◌, ℕ, IsTrue, IsSome, IfSome, IfNone, is_some, false};
ghost use Rattle.ec_terms.specs.Binding.{after_place, is_small_place, stands_in, values_of, Extends, IsSmall};
ghost use Rattle.ec_terms.specs.Matching.{binding_of, fits, fits_some, has_shape as shape, place_fits, Values};
ghost use Rattle.ec_terms.specs.Term.{arg_of, ground_of, is_argument, names_are_names};

use crate::binding::Binding;
use crate::ground::{ArgRef, GroundRef};
use crate::pattern::{PatArg, Pattern};

/// Lets a place of a pattern meet an argument: a variable without a value takes the argument.
/// Says whether the place fits.
fn place_meets<'a>(binding: &mut Binding<'a>, place: &PatArg, arg: ArgRef<'a>) -> bool
    requires small { IsTrue (is_small_place place.now) }
    requires named { IsTrue (is_argument (arg_of arg)) }
    ensures binding { values_of binding.new ≡ after_place (values_of binding.old) place.now (arg_of arg.entry) }
    ensures fits { result ≡ place_fits (values_of binding.new) place.now (arg_of arg.entry) }
{
    match place {
        PatArg::Var(variable) => match binding.get(*variable) {
            Some(value) => value == arg,
            None => {
                binding.set(*variable, arg);
                true
            }
        },
        PatArg::Any => true,
        PatArg::Fixed(fixed) => fixed.borrow() == arg,
    }
}

/// Whether a term has the pattern's name, and as many arguments as the pattern has places.
fn has_shape(pattern: &Pattern, term: &GroundRef<'_>) -> bool
    ensures { result ≡ shape pattern.now (ground_of term.now) }
{
    pattern.name.as_bytes() == term.name && pattern.args.len() == term.args.len()
}

/// Matches the places of a pattern with the arguments of a term that has its shape.
fn match_places<'a>(
    pattern: &Pattern,
    term: &GroundRef<'a>,
    start: Binding<'a>,
) -> Option<Binding<'a>>
    requires small { IsSmall pattern.now }
    requires named { IsTrue (names_are_names (ground_of term.now)) }
    requires shape { IsTrue (shape pattern.now (ground_of term.now)) }
    ensures fits { IfSome result (λ found. IsTrue (fits (values_of found) pattern.now (ground_of term.now))) }
    ensures extends { IfSome result (λ found. Extends (values_of start.entry) (values_of found)) }
    ensures bound { IfSome result (λ found. (v : ℕ) →
        is_some (values_of found v) ≡ (is_some (values_of start.entry v) || stands_in v pattern.now)) }
    ensures none { IfNone result ((values : Values) → Extends (values_of start.entry) values →
        fits values pattern.now (ground_of term.now) ≡ false) }
{
    let args = term.args.as_slice();
    let mut binding = start;
    for (i, place) in pattern.args.as_slice().iter().enumerate() {
        if !place_meets(&mut binding, place, args[i]) {
            return None;
        }
    }
    Some(binding)
}

/// Matches a pattern with a term from a binding on: `start` with the pattern's further variables
/// bound so that the pattern fits the term, or `None` where no binding does.
pub fn extend_match<'a>(
    pattern: &Pattern,
    term: &GroundRef<'a>,
    start: Binding<'a>,
) -> Option<Binding<'a>>
    requires small { IsSmall pattern.now }
    requires named { IsTrue (names_are_names (ground_of term.now)) }
    ensures fits { IfSome result (λ found. IsTrue (fits (values_of found) pattern.now (ground_of term.now))) }
    ensures extends { IfSome result (λ found. Extends (values_of start.entry) (values_of found)) }
    ensures bound { IfSome result (λ found. (v : ℕ) →
        is_some (values_of found v) ≡ (is_some (values_of start.entry v) || stands_in v pattern.now)) }
    ensures none { IfNone result ((values : Values) → Extends (values_of start.entry) values →
        fits values pattern.now (ground_of term.now) ≡ false) }
{
    if !has_shape(pattern, term) {
        return None;
    }
    match_places(pattern, term, start)
}

/// Matches a pattern with a term: the binding of exactly the pattern's variables under which the
/// pattern fits the term, or `None` where there is none. A binding is made only for a term of the
/// pattern's name and number of arguments.
pub fn matches<'a>(pattern: &Pattern, term: &GroundRef<'a>) -> Option<Binding<'a>>
    requires small { IsSmall pattern.now }
    requires named { IsTrue (names_are_names (ground_of term.now)) }
    ensures fits { IsSome result ↔ IsTrue (fits_some pattern.now (ground_of term.now)) }
    ensures binding { IfSome result (λ found. values_of found ≡ binding_of pattern.now (ground_of term.now)) }
{
    if !has_shape(pattern, term) {
        return None;
    }
    match_places(pattern, term, Binding::new())
}
