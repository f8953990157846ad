ghost use Rattle.std.specs.Prelude.{◌≡◌, ◌+◌, ◌-◌, ◌<◌, ◌≤◌, ℕ, List, [], IsTrue, false, Some, IfSome, IfNone, IfOk, OnOk, length, take, drop, slice_get};
ghost use Rattle.std.specs.List.{splice, HoldsAt, list_any};
ghost use Rattle.ec_rows.specs.declared.span.Span.{Span};
ghost use Rattle.ec_rows.specs.Spans.{IsSpanRow, is_covering, spans_before};

use crate::span::Span;
use ec_lists::NoMemory;
use ec_moment::Moment;
use std::alloc::Global;

/// The spans over which one property holds: a list in order, in which each span ends by the start of the
/// next one, and only the last can be unended.
pub trait SpanRow<T: Moment>: Drop {
    // The spans, in order.
    ghost spans: { Self → List (Span T) };

    // How many further spans the row takes without memory.
    ghost spare: { Self → ℕ };

    /// The row of no spans.
    fn new(alloc: Global) -> Result<Self, NoMemory>
        ensures { IfOk result (λ row. spans row ≡ []) };

    /// How many spans there are.
    fn len(&self) -> usize
        ensures len { result ≡ length (spans self.now) }
        ensures row { IsSpanRow T.rank (spans self.now) };

    /// Makes room for `n` further spans. A refusal leaves all as it was.
    fn reserve(&mut self, n: usize) -> Result<(), NoMemory>
        ensures same { spans self.new ≡ spans self.old }
        ensures ok { OnOk result (n ≤ spare self.new) }
        ensures kept { spare self.old ≤ spare self.new };

    /// The span at a place, from 0.
    fn get(&self, i: usize) -> Span<T>
        requires { i < length (spans self.now) }
        ensures span { slice_get (spans self.now) i ≡ Some result }
        ensures row { IsSpanRow T.rank (spans self.now) };

    /// The spans from a place on that lie together in memory.
    fn run(&self, i: usize) -> &[Span<T>]
        requires { i < length (spans self.now) }
        ensures some { 1 ≤ length result.now }
        ensures run { result.now ≡ take (length result.now) (drop i (spans self.now)) }
        ensures row { IsSpanRow T.rank (spans self.now) };

    /// How many spans start strictly before a time.
    fn count_before(&self, at: T) -> usize
        ensures count { result ≡ length (spans_before T.rank (T.rank at) (spans self.now)) }
        ensures row { IsSpanRow T.rank (spans self.now) };

    /// The place of the span that covers a time: its start lies before the time, and it does not end
    /// before it. `None` where no span covers the time.
    fn covering(&self, at: T) -> Option<usize>
        ensures within { IfSome result (λ i. i < length (spans self.now)) }
        ensures covering { IfSome result (λ i. HoldsAt (λ span. IsTrue (is_covering T.rank (T.rank at) span)) (spans self.now) i) }
        ensures none { IfNone result (list_any (is_covering T.rank (T.rank at)) (spans self.now) ≡ false) }
        ensures row { IsSpanRow T.rank (spans self.now) };

    /// Puts the spans `with` in place of those from one place up to another. It takes no memory, and room
    /// only for as many spans as the row grows by.
    fn splice(&mut self, from: usize, to: usize, with: &[Span<T>])
        requires ordered { from ≤ to }
        requires within { to ≤ length (spans self.old) }
        requires spans { IsSpanRow T.rank (splice (spans self.old) from to with.now) }
        requires room { length with.now - (to - from) ≤ spare self.old }
        ensures spans { spans self.new ≡ splice (spans self.old) from to with.now }
        ensures spare { spare self.old ≤ spare self.new + (length with.now - (to - from)) };
}
