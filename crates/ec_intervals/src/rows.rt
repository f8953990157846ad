//! Rows of intervals that are kept by the numbers of their properties.
ghost use Rattle.std.specs.Prelude.{◌≡◌, ◌≢◌, ℕ, ◌≤◌, [], None, IsSome, IfOk, OnOk, OnErr, is_some};
ghost use Rattle.ec_intervals.specs.RowViews.{seen_at};
ghost use Rattle.ec_intervals.specs.Table.{IsGrown, room_in};
ghost use Rattle.ec_numbered.specs.ByNumber.{kept_at};

use crate::row::KeptRow;
use ec_lists::NoMemory;
use ec_moment::Moment;
use ec_numbered::ByNumber;
use ec_rows::SpanRow;
use ec_terms::PropId;
use std::alloc::Global;

/// A row of no intervals, with room for this many spans.
fn make_row<T: Moment, I: SpanRow<T>>(
    spans: usize,
    alloc: Global,
) -> Result<KeptRow<T, I>, NoMemory>
    ensures front { IfOk result (λ kept. kept.front ≡ None) }
    ensures spans { IfOk result (λ kept. I.spans kept.spans ≡ []) }
    ensures room { IfOk result (λ kept. spans ≤ I.spare kept.spans) }
{
    let mut made = I::new(alloc)?;
    made.reserve(spans)?;
    Ok(KeptRow {
        front: None,
        spans: made,
    })
}

/// Gives `p`, which has no row, a row with room for spans. A refusal leaves the rows as they were.
fn add_row<T: Moment, I: SpanRow<T>>(
    rows: &mut ByNumber<KeptRow<T, I>>,
    p: PropId,
    spans: usize,
    alloc: Global,
) -> Result<(), NoMemory>
    requires { kept_at p.0 rows.old ≡ None }
    ensures others { (n : ℕ) → n ≢ p.0 → kept_at n rows.new ≡ kept_at n rows.old }
    ensures grown { IsGrown (seen_at I.spans I.spare p.0 rows.old) (seen_at I.spans I.spare p.0 rows.new) }
    ensures there { OnOk result (IsSome (kept_at p.0 rows.new)) }
    ensures room { OnOk result (spans ≤ room_in (seen_at I.spans I.spare p.0 rows.new)) }
    ensures err { OnErr result (is_some (kept_at p.0 rows.new) ≡ is_some (kept_at p.0 rows.old)) }
{
    rows.place(p)?;
    rows.set(p, make_row(spans, alloc)?);
    Ok(())
}

/// Gives `p` a row, where it has none, and room in it for further spans. A refusal leaves the rows as they were.
pub(crate) fn prepare_row<T: Moment, I: SpanRow<T>>(
    rows: &mut ByNumber<KeptRow<T, I>>,
    p: PropId,
    spans: usize,
    alloc: Global,
) -> Result<(), NoMemory>
    ensures others { (n : ℕ) → n ≢ p.0 → kept_at n rows.new ≡ kept_at n rows.old }
    ensures grown { IsGrown (seen_at I.spans I.spare p.0 rows.old) (seen_at I.spans I.spare p.0 rows.new) }
    ensures there { OnOk result (IsSome (kept_at p.0 rows.new)) }
    ensures room { OnOk result (spans ≤ room_in (seen_at I.spans I.spare p.0 rows.new)) }
    ensures err { OnErr result (is_some (kept_at p.0 rows.new) ≡ is_some (kept_at p.0 rows.old)) }
{
    match rows.get_mut(p) {
        Some(kept) => kept.spans.reserve(spans),
        None => add_row(rows, p, spans, alloc),
    }
}
