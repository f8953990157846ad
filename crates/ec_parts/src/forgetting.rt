//! Properties that are kept no longer.
ghost use Rattle.std.specs.Prelude.{◌≡◌, ◌≢◌, ℕ, Some, IsTrue};
ghost use Rattle.ec_exclusive.specs.Added.{is_added};
ghost use Rattle.ec_store.specs.Table.{mentions_at, prop_at, without_prop};
ghost use Rattle.ec_parts.specs.Mentions.{ForgetsOne};
ghost use Rattle.ec_parts.specs.StandFor.{view_of};

use crate::parts::Parts;
use ec_moment::Moment;
use ec_rows::{MarkRow, SpanRow, TimeRow};
use ec_terms::PropId;

/// Keeps a property no longer, which nothing mentions: it leaves the tables, and its rows are emptied. Where it is not live
/// in the present list, the parts stand for the same lists as before. It takes no memory.
pub fn forget<T: Moment, M: MarkRow<T>, I: SpanRow<T>, X: TimeRow<T>>(
    parts: &mut Parts<T, M, I, X>,
    p: PropId,
)
    requires unmentioned { mentions_at p.0 parts.old.props ≡ Some 0 }
    requires added { IsTrue (is_added p parts.old.neighbours.rows) }
    ensures both { ForgetsOne T.rank parts.old.checked p (view_of parts.old) (view_of parts.new) }
    ensures table { parts.new.props ≡ without_prop p.0 parts.old.props }
    ensures others { (q : ℕ) → q ≢ p.0 → prop_at q parts.new.props ≡ prop_at q parts.old.props }
    ensures theory { parts.new.checked ≡ parts.old.checked }
{
    let _ = parts.props.len();
    parts.neighbours.drop_prop(p);
    parts.props.forget(p);
    parts.points.clear(p);
    parts.initiations.clear(p);
    parts.intervals.clear(p);
}
