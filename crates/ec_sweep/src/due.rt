//! Which properties are due at an instant, and which instant comes next.
ghost use Rattle.std.specs.Prelude.{◌≡◌, ◌≤ℤ◌, ℕ, ℤ, false, IfOk, IsSomeAnd, IsTrue, int_lt, slice_get};
ghost use Rattle.ec_numbered.specs.Due.{has_due};
ghost use Rattle.ec_sweep.specs.Visiting.{AreDueAt, IsAgendaBehind};

use crate::scratch::Scratch;
use ec_lists::NoMemory;
use ec_moment::Moment;
use ec_numbered::Agenda;
use ec_terms::PropId;

/// Whether a time comes before another.
fn is_before<T: Moment>(at: T, other: T) -> bool
    ensures { result ≡ int_lt (T.rank at) (T.rank other) }
{
    at.order(&other).is_lt()
}

/// Whether what is due first is due at a time or before it.
fn is_first_by<T: Moment>(agenda: &Agenda<T>, at: T) -> bool
    ensures some { IsTrue result → IsSomeAnd (slice_get agenda.now 0) (λ due. T.rank due.0 ≤ℤ T.rank at) }
    ensures none { result ≡ false → (n : ℕ) → has_due T.rank (T.rank at) n agenda.now ≡ false }
{
    let _ = agenda.is_empty();
    match agenda.first_time() {
        Some(first) => !is_before(at, first),
        None => false,
    }
}

/// Takes out of the agenda what is due at the first of its times, which is given. `Err`: memory ran out, and what was taken out
/// is of no further use.
pub(crate) fn take_due<T: Moment>(
    scratch: &mut Scratch,
    agenda: &mut Agenda<T>,
    at: T,
) -> Result<Vec<PropId>, NoMemory>
    requires { (n : ℕ) (t : ℤ) → IsTrue (has_due T.rank t n agenda.old) → T.rank at ≤ℤ t }
    ensures due { IfOk result (λ due. AreDueAt T.rank agenda.old (T.rank at) due.items) }
    ensures behind { IfOk result (λ due. IsAgendaBehind T.rank agenda.old (T.rank at) agenda.new) }
{
    let mut due = scratch.take_due();
    while is_first_by(agenda, at) {
        if let Some((_, p)) = agenda.pop() {
            due.push(p)?;
        }
    }
    Ok(due)
}
