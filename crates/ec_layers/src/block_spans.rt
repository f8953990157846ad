//! That a row of spans in blocks and one in a `Vec` go the same way.
ghost use Rattle.std.specs.Prelude.{◌≡◌, ◌≤◌, IsTrue, IfOk, length};
ghost use Rattle.std.specs.List.{splice, list_all};
ghost use Rattle.ec_rows.specs.Spans.{IsSpanRow, is_proper, span_before};

use crate::blocks::Draws;
use ec_block_rows::BlockSpans;
use ec_lists::NoMemory;
use ec_moment::{Moment, Tick};
use ec_rows::{End, Span, SpanRow, VecSpans};
use std::alloc::Global;
use std::process::Abort;

/// The spans of a row.
pub fn spans_of<S: SpanRow<Tick>>(alloc: Global, row: &S) -> Result<Vec<Span<Tick>>, NoMemory>
    ensures { IfOk result (λ spans. spans.items ≡ S.spans row.now) }
{
    let mut spans = Vec::new(alloc);
    for i in 0..row.len() {
        spans.push(row.get(i))?;
    }
    Ok(spans)
}

/// Spans with others in place of some of them.
fn spliced(
    alloc: Global,
    spans: &[Span<Tick>],
    from: usize,
    to: usize,
    with: &[Span<Tick>],
) -> Result<Vec<Span<Tick>>, NoMemory>
    requires ordered { from ≤ to }
    requires within { to ≤ length spans.now }
    ensures { IfOk result (λ all. all.items ≡ splice spans.now from to with.now) }
{
    let mut all = Vec::new(alloc);
    all.extend_from_slice(&spans[..from])?;
    all.extend_from_slice(with)?;
    all.extend_from_slice(&spans[to..])?;
    Ok(all)
}

/// Whether a span ends after its start.
fn is_proper(span: &Span<Tick>) -> bool
    ensures { result ≡ is_proper ⟦<Tick as Moment>⟧.rank span.now }
{
    match span.end {
        End::At(end) => span.from.order(&end).is_lt(),
        End::Unended => true,
    }
}

/// Whether a span ends by the start of another.
fn stands_before(span: &Span<Tick>, other: &Span<Tick>) -> bool
    ensures { result ≡ span_before ⟦<Tick as Moment>⟧.rank span.now other.now }
{
    match span.end {
        End::At(end) => end.order(&other.from).is_le(),
        End::Unended => false,
    }
}

/// Whether these spans all end by the start of another.
fn all_stand_before(spans: &[Span<Tick>], other: &Span<Tick>) -> bool
    ensures { result ≡ list_all (λ s. span_before ⟦<Tick as Moment>⟧.rank s other.now) spans.now }
{
    spans.iter().all(|span| stands_before(span, other))
}

/// Whether a span can stand behind these spans.
fn can_follow(spans: &[Span<Tick>], span: &Span<Tick>) -> bool
    ensures proper { IsTrue result → IsTrue (is_proper ⟦<Tick as Moment>⟧.rank span.now) }
    ensures behind { IsTrue result → IsTrue (list_all (λ s. span_before ⟦<Tick as Moment>⟧.rank s span.now) spans.now) }
{
    is_proper(span) && all_stand_before(spans, span)
}

/// Whether these spans are a row of spans.
fn is_row(spans: &[Span<Tick>]) -> bool
    ensures { IsTrue result → IsSpanRow ⟦<Tick as Moment>⟧.rank spans.now }
{
    for i in 0..spans.len() {
        if !can_follow(&spans[..i], &spans[i]) {
            return false;
        }
    }
    true
}

/// Puts spans in place of those of a row from one place up to another, if what comes of it is a row of spans, and tells
/// whether it is.
pub fn splice_row<S: SpanRow<Tick>>(
    rt: &impl Abort,
    alloc: Global,
    row: &mut S,
    from: usize,
    to: usize,
    with: &[Span<Tick>],
) -> bool {
    let spans = spans_of(alloc, row).expect(rt, "memory");
    if to < from || spans.len() < to {
        return false;
    }
    let wanted = spliced(alloc, &spans, from, to, with).expect(rt, "memory");
    if !is_row(&wanted) {
        return false;
    }
    row.reserve(with.len()).expect(rt, "memory");
    row.splice(from, to, with);
    true
}

/// A span of five ticks.
fn short(from: i64) -> Span<Tick> {
    Span {
        from: Tick(from),
        end: End::At(Tick(from.wrapping_add(5))),
    }
}

/// Puts up to three spans in place of those that begin within fifty ticks, in both rows, and tells whether both could be spliced.
fn splice_both<A: SpanRow<Tick>, B: SpanRow<Tick>>(
    rt: &impl Abort,
    alloc: Global,
    draws: &mut Draws,
    a: &mut A,
    b: &mut B,
) -> bool {
    let at = draws.draw(200) as i64 * 50;
    let spans = [short(at), short(at + 5), short(at + 20)];
    let count = draws.draw(4) as usize;
    let from = a.count_before(Tick(at));
    let to = a.count_before(Tick(at + 50));
    splice_row(rt, alloc, a, from, to, &spans[..count])
        && splice_row(rt, alloc, b, from, to, &spans[..count])
}

/// Whether the spans of two rows are the same.
fn are_same<A: SpanRow<Tick>, B: SpanRow<Tick>>(a: &A, b: &B) -> bool {
    if a.len() != b.len() {
        return false;
    }
    for i in 0..a.len() {
        if a.get(i) != b.get(i) {
            return false;
        }
    }
    true
}

/// Whether two rows are the same after each of 500 calls, and fill more than one block.
fn stay_the_same<A: SpanRow<Tick>, B: SpanRow<Tick>>(
    rt: &impl Abort,
    alloc: Global,
    draws: &mut Draws,
    a: &mut A,
    b: &mut B,
) -> bool {
    for _ in 0..500 {
        if !splice_both(rt, alloc, draws, a, b) || !are_same(a, b) {
            return false;
        }
    }
    128 < a.len()
}

/// Whether two rows that are made go the same way.
fn go_the_same_way<A: SpanRow<Tick>, B: SpanRow<Tick>>(rt: &impl Abort, alloc: Global) -> bool {
    let mut a = A::new(alloc).expect(rt, "memory");
    let mut b = B::new(alloc).expect(rt, "memory");
    stay_the_same(rt, alloc, &mut Draws::new(), &mut a, &mut b)
}

#[test]
fn spans_in_blocks_go_as_spans_in_one_vec(rt: HostRuntime) {
    assert!(rt; go_the_same_way::<VecSpans<Tick>, BlockSpans<Tick>>(&rt, rt.alloc()));
}
