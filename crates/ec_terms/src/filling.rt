ghost use Rattle.std.specs.Prelude.{◌≡◌, IsTrue, IfOk, IfSome, option_map};
ghost use Rattle.std.specs.List.{list_all};
ghost use Rattle.ec_terms.specs.Binding.{fills, is_ready_test, is_small_place, values_of, IsSmall};
ghost use Rattle.ec_terms.specs.Matching.{compares, filled, value_of};
ghost use Rattle.ec_terms.specs.Matching.{test_holds as holds};
ghost use Rattle.ec_terms.specs.Term.{arg_of, ground_of, is_argument, names_are_names};

use crate::binding::Binding;
use crate::ground::{ArgRef, ArgRefs, Ground, GroundRef};
use crate::pattern::{PatArg, Pattern};
use crate::theory::{Rule, Test, TestOp};
use ec_lists::NoMemory;
use std::alloc::Global;

/// The value of a place of a pattern: a fixed argument, or what the binding gives its variable.
fn place_value<'a>(place: &'a PatArg, binding: &Binding<'a>) -> Option<ArgRef<'a>>
    requires { IsTrue (is_small_place place.now) }
    ensures value { option_map arg_of result ≡ value_of (values_of binding.now) place.now }
    ensures named { IfSome result (λ arg. IsTrue (is_argument (arg_of arg))) }
{
    match place {
        PatArg::Var(variable) => binding.get(*variable),
        PatArg::Any => None,
        PatArg::Fixed(arg) => Some(arg.borrow()),
    }
}

/// The term that a pattern becomes under a binding, which has to give each of its variables a
/// value; a `_` has none. It takes no memory: the names stay where they are.
pub fn fill_ref<'a>(pattern: &'a Pattern, binding: &Binding<'a>) -> GroundRef<'a>
    requires small { IsSmall pattern.now }
    requires bound { IsTrue (fills (values_of binding.now) pattern.now) }
    ensures filled { ground_of result ≡ filled (values_of binding.now) pattern.now }
    ensures named { IsTrue (names_are_names (ground_of result)) }
{
    let mut args = ArgRefs::new();
    for place in pattern.args.as_slice() {
        if let Some(arg) = place_value(place, binding) {
            args.push(arg);
        }
    }
    GroundRef {
        name: pattern.name.as_bytes(),
        args,
    }
}

/// The same term as `fill_ref` gives, with its own copy of each name. It is refused only if memory runs out.
pub fn fill(alloc: Global, pattern: &Pattern, binding: &Binding<'_>) -> Result<Ground, NoMemory>
    requires small { IsSmall pattern.now }
    requires bound { IsTrue (fills (values_of binding.now) pattern.now) }
    ensures { IfOk result (λ term. term ≡ filled (values_of binding.now) pattern.now) }
{
    fill_ref(pattern, &*binding).to_ground(alloc)
}

/// What a comparison says of two arguments.
fn compare(op: TestOp, left: ArgRef<'_>, right: ArgRef<'_>) -> bool
    ensures { result ≡ compares op (arg_of left.entry) (arg_of right.entry) }
{
    match op {
        TestOp::Same => left == right,
        TestOp::Differ => left != right,
        TestOp::Less => left < right,
        TestOp::AtMost => left <= right,
    }
}

/// Whether a test holds under a binding.
fn test_holds<'a>(test: &'a Test, binding: &Binding<'a>) -> bool
    requires { IsTrue (is_ready_test (values_of binding.now) test.now) }
    ensures { result ≡ holds (values_of binding.now) test.now }
{
    match (
        place_value(&test.left, binding),
        place_value(&test.right, binding),
    ) {
        (Some(left), Some(right)) => compare(test.op, left, right),
        _ => false,
    }
}

/// Whether all tests of a rule hold under a binding, which has to give each of their variables a
/// value.
pub fn tests_hold(rule: &Rule, binding: &Binding<'_>) -> bool
    requires { IsTrue (list_all (is_ready_test (values_of binding.now)) rule.now.tests) }
    ensures { result ≡ list_all (holds (values_of binding.now)) rule.now.tests }
{
    for test in rule.tests.as_slice() {
        if !test_holds(test, &*binding) {
            return false;
        }
    }
    true
}
