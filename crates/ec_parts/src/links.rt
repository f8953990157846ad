//! What a mention of a property adds to the links.
ghost use Rattle.std.specs.Prelude.{◌≡◌, ◌<◌, ◌^◌, IsSome, All, sum_by};
ghost use Rattle.ec_store.specs.Table.{prop_at};
ghost use Rattle.ec_parts.specs.Mentions.{links_to as links_of_one};

use ec_moment::Moment;
use ec_points::Points;
use ec_rows::MarkRow;
use ec_store::PropTable;
use ec_terms::PropId;

/// What a mention of a property adds to the links by one of its neighbours. It makes the property live where `fresh`.
#[tactic(auto, unfolding(crate::specs::Mentions::links_to))]
fn links_to<T: Moment, M: MarkRow<T>>(
    props: &PropTable,
    points: &Points<T, M>,
    fresh: bool,
    q: PropId,
) -> u64
    requires { IsSome (prop_at q.0 props.now) }
    ensures { result ≡ links_of_one fresh props.now points.now q }
{
    let count = props.mentions(q);
    let live = u64::from(count > 0);
    if !fresh {
        return live;
    }
    let held = u32::from(points.initial(q));
    live + u64::from(count.saturating_sub(held))
}

/// What a mention of a property adds to the links by all of its neighbours.
pub(crate) fn links_with<T: Moment, M: MarkRow<T>>(
    props: &PropTable,
    points: &Points<T, M>,
    fresh: bool,
    list: &[PropId],
) -> u64
    requires kept { All (λ q. IsSome (prop_at q.0 props.now)) list.now }
    requires few { sum_by (links_of_one fresh props.now points.now) list.now < 2 ^ 64 }
    ensures { result ≡ sum_by (links_of_one fresh props.now points.now) list.now }
{
    let mut links = 0;
    for q in list {
        links += links_to(props, points, fresh, *q);
    }
    links
}
