ghost use Rattle.std.specs.Prelude.{◌≡◌, ◌+◌, ◌-◌, ◌<◌, ◌≤◌, IsTrue, false, IfSome, IfNone, length};
ghost use Rattle.std.specs.List.{splice, HoldsAt, list_any};
ghost use Rattle.ec_rows.specs.Spans.{IsSpanRow, is_covering, spans_before, reaches};

use crate::search::{ANYWHERE, count_before};
use ec_blocks::Blocks;
use ec_lists::NoMemory;
use ec_moment::Moment;
use ec_rows::{End, Span, SpanRow};
use std::alloc::Global;
use std::marker::Model;

/// A row of spans in blocks.
#[derive(Drop)]
pub struct BlockSpans<T: Moment> {
    spans: Blocks<Span<T>>,
}

impl<T: Moment> Model for BlockSpans<T> {
    ghost use Rattle.ec_rows.specs.declared.span.Span.{Span};
    ghost use Rattle.ec_lists.specs.Reserved.{Reserved};
    ghost use Rattle.ec_rows.specs.Spans.{IsSpanRow};

    ghost Value = { Reserved (Span T) };

    ghost view = { λ row. row.spans };

    ghost invariant = { λ row. IsSpanRow T.rank row.spans.items };
}

impl<T: Moment> SpanRow<T> for BlockSpans<T> {
    ghost spans = { λ row. row.items };

    ghost spare = { λ row. row.spare };

    fn new(alloc: Global) -> Result<Self, NoMemory> {
        Ok(BlockSpans {
            spans: Blocks::new(alloc),
        })
    }

    fn len(&self) -> usize {
        self.spans.len()
    }

    fn reserve(&mut self, n: usize) -> Result<(), NoMemory> {
        self.spans.reserve(n)
    }

    fn get(&self, i: usize) -> Span<T> {
        *self.spans.get(i)
    }

    fn run(&self, i: usize) -> &[Span<T>] {
        self.spans.run(i)
    }

    fn count_before(&self, at: T) -> usize {
        count_spans_before(&self.spans, at)
    }

    fn covering(&self, at: T) -> Option<usize> {
        place_covering(&self.spans, at)
    }

    fn splice(&mut self, from: usize, to: usize, with: &[Span<T>])
        requires ordered { from ≤ to }
        requires within { to ≤ length self.old.items }
        requires spans { IsSpanRow T.rank (splice self.old.items from to with.now) }
        requires room { length with.now - (to - from) ≤ self.old.spare }
        ensures spans { self.new.items ≡ splice self.old.items from to with.now }
        ensures spare { self.old.spare ≤ self.new.spare + (length with.now - (to - from)) }
    {
        self.spans.splice(from, to, with);
    }
}

/// How many spans start before a time.
fn count_spans_before<T: Moment>(spans: &Blocks<Span<T>>, at: T) -> usize
    requires { IsSpanRow T.rank spans.now.items }
    ensures { result ≡ length (spans_before T.rank (T.rank at) spans.now.items) }
{
    count_before(spans, at, ANYWHERE)
}

/// Whether a time lies up to the end of a span.
fn reaches<T: Moment>(span: &Span<T>, at: T) -> bool
    ensures { result ≡ reaches T.rank (T.rank at) span.now.end }
{
    match span.end {
        End::At(end) => at.order(&end).is_le(),
        End::Unended => true,
    }
}

/// The place of the span that covers a time: the last that starts before the time, if it does not end
/// before it.
fn place_covering<T: Moment>(spans: &Blocks<Span<T>>, at: T) -> Option<usize>
    requires { IsSpanRow T.rank spans.now.items }
    ensures within { IfSome result (λ i. i < length spans.now.items) }
    ensures covering { IfSome result (λ i. HoldsAt (λ span. IsTrue (is_covering T.rank (T.rank at) span)) spans.now.items i) }
    ensures none { IfNone result (list_any (is_covering T.rank (T.rank at)) spans.now.items ≡ false) }
{
    let count = count_before(spans, at, ANYWHERE);
    if count == 0 {
        return None;
    }
    let last = count - 1;
    if reaches(spans.get(last), at) {
        Some(last)
    } else {
        None
    }
}
