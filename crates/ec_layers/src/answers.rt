//! Answers that no whole run of a test gets.
use crate::steps::COUNTS;
use ec_lines::{Answer, write_answer};
use ec_lists::NoMemory;
use ec_outside::{MemSink, Sink};
use std::alloc::AllocError;

/// Memory ran out, and a count is as large as it can be.
const TEXTS: &[u8] = b"refused memory\nlast seen 12 on 18446744073709551615 off 0 props 13\n";

/// Whether a sink takes both answers. All that names `Answer` stands in this function: it costs a proof some ten seconds.
fn takes_both(sink: &mut impl Sink) -> bool {
    write_answer(
        None,
        &Answer::Memory(NoMemory::from(AllocError)),
        &mut *sink,
    )
    .is_ok()
        && write_answer(None, &Answer::Last(COUNTS), &mut *sink).is_ok()
}

/// The answers are written one after the other, three bytes at a time.
#[test]
fn each_answer_has_its_text(rt: HostRuntime) {
    let mut sink = MemSink::new(rt.alloc(), 256, 3, &[], &[]).expect(&rt, "memory");
    assert!(rt; takes_both(&mut sink) && sink.bytes() == TEXTS);
}
