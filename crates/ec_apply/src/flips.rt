//! The events that stay and of which other entries are active.
ghost use Rattle.std.specs.Prelude.{◌≡◌, IsSome, length};
ghost use Rattle.std.specs.List.{All};
ghost use Rattle.ec_terms.specs.declared.ids.Slot.{Slot};
ghost use Rattle.ec_numbered.specs.ByNumber.{kept_at};
ghost use Rattle.ec_apply.specs.Events.{with_flips};

use ec_delta::Flip;
use ec_entries::Entries;
use ec_moment::Moment;
use ec_terms::Sequence;

/// Says anew which entries are active, of each event of these. It takes no memory.
pub(crate) fn set_flips<T: Moment>(entries: &mut Entries<T>, mut flips: Sequence<Flip>)
    requires { All (λ flip. IsSome (kept_at flip.slot.0 entries.old.slots)) flips }
    ensures slots { (slot : Slot) → kept_at slot.0 entries.new.slots ≡ with_flips slot flips (kept_at slot.0 entries.old.slots) }
    ensures places { length entries.new.slots ≡ length entries.old.slots }
    ensures rows { entries.new.rows ≡ entries.old.rows }
{
    while let Some(flip) = flips.pop() {
        entries.set_active(flip.slot, flip.active);
    }
}
