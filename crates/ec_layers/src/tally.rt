//! A span row that tells what its splices touched.
use ec_lists::NoMemory;
use ec_moment::Tick;
use ec_rows::{Span, SpanRow, VecSpans};
use std::alloc::Global;

/// A span row that passes each call on. It keeps how many splices were made, and the least place at which one of those
/// wrote that were made since it first had a hundred spans.
#[derive(Drop)]
pub struct TallySpans {
    spans: VecSpans<Tick>,
    splices: u64,
    least: usize,
}

impl TallySpans {
    /// How many splices were made.
    pub fn splices(&self) -> u64 {
        self.splices
    }

    /// The least place at which a splice wrote since the row first had a hundred spans; `usize::MAX` before there is one.
    pub fn least(&self) -> usize {
        self.least
    }

    /// The least place, with one more splice at a place.
    fn least_with(&self, from: usize) -> usize {
        if self.spans.len() < 100 {
            return self.least;
        }
        self.least.min(from)
    }
}

impl SpanRow<Tick> for TallySpans {
    ghost spans = { λ row. row.spans.items };

    ghost spare = { λ row. row.spans.spare };

    fn new(alloc: Global) -> Result<Self, NoMemory> {
        Ok(TallySpans {
            spans: VecSpans::new(alloc)?,
            splices: 0,
            least: usize::MAX,
        })
    }

    fn len(&self) -> usize {
        self.spans.len()
    }

    fn reserve(&mut self, n: usize) -> Result<(), NoMemory> {
        self.spans.reserve(n)
    }

    fn get(&self, i: usize) -> Span<Tick> {
        self.spans.get(i)
    }

    fn run(&self, i: usize) -> &[Span<Tick>] {
        self.spans.run(i)
    }

    fn count_before(&self, at: Tick) -> usize {
        self.spans.count_before(at)
    }

    fn covering(&self, at: Tick) -> Option<usize> {
        self.spans.covering(at)
    }

    fn splice(&mut self, from: usize, to: usize, with: &[Span<Tick>]) {
        self.least = self.least_with(from);
        self.splices = self.splices.wrapping_add(1);
        self.spans.splice(from, to, with);
    }
}
