//! Generated lines beside those that were made apart from the program, and counted replies.
use ec_outside::{MemSink, Sink, Source, write_all};
use ec_soak::{Counts, SoakSource, TallySink, write_summary};
use std::alloc::Global;
use std::process::Abort;

/// The lines of seed 0, made apart from the program.
const SEED_0: &[u8] = b"\
assert e1 96424 unplug(l45)\n\
intervals lit(l56)\n\
holds lit(l32) 18139\n\
assert e4 46482 unplug(l52)\n\
assert e5 40745 move(p11,h35)\n\
assert e6 58069 unplug(l13)\n\
holds at(p1,h23) 97011\n\
assert e8 25417 plug(l36)\n\
holds at(p11,h18) 70999\n\
holds lit(l38) 70016\n\
holds lit(l49) 40817\n\
assert e12 13832 unplug(l20)\n\
holds at(p8,h63) 27065\n\
last\n\
assert e15 65975 push(p12,l2)\n\
retract e1\n\
retract e7\n\
assert e18 54185 unplug(l3)\n\
assert e19 87294 unplug(l56)\n\
assert e20 90012 leave(p4,h62)\n\
assert e21 21075 move(p5,h49)\n\
assert e22 23261 move(p7,h56)\n\
holds lit(l61) 88464\n\
assert e24 98095 push(p14,l7)\n";

/// The lines of the last seed, whose first draw wraps.
const LAST_SEED: &[u8] = b"\
holds at(p7,h21) 17602\n\
holds lit(l3) 92885\n\
assert e3 84440 unplug(l50)\n\
holds lit(l26) 95278\n\
holds at(p9,h4) 82178\n\
assert e6 98641 push(p1,l51)\n";

/// Reads the next piece of a source, and says how long it is.
fn read_piece(
    rt: &impl Abort,
    source: &mut impl Source,
    buffer: &mut [u8],
    into: &mut Vec<u8>,
) -> usize {
    let count = source.read(&mut *buffer).ok().expect(rt, "a read");
    into.extend_from_slice(&buffer[..count])
        .expect(rt, "memory");
    count
}

/// Reads a source to its end.
fn read_all(rt: &impl Abort, source: &mut impl Source, buffer: &mut [u8], into: &mut Vec<u8>) {
    for _ in 0..100_000u32 {
        if read_piece(rt, source, &mut *buffer, into) == 0 {
            return;
        }
    }
}

/// How many lines of which seed, and their text.
const LOADS: [(u32, u64, &[u8]); 3] = [
    (24, 0, SEED_0),
    (6, 18_446_744_073_709_551_615, LAST_SEED),
    (0, 5, b""),
];

/// Whether all lines of a seed, read to their end into a buffer of this length, are these.
fn has_lines(
    rt: &impl Abort,
    alloc: Global,
    (lines, seed): (u32, u64),
    size: usize,
    text: &[u8],
) -> bool {
    let size = size.min(4096);
    let mut bytes = Vec::new(alloc);
    read_all(
        rt,
        &mut SoakSource::new(lines, seed),
        &mut [0; 4096][..size],
        &mut bytes,
    );
    bytes.as_slice() == text
}

/// Sees that each seed gives its lines, read into a buffer of this length.
fn check_loads(rt: &impl Abort, alloc: Global, size: usize) {
    for (lines, seed, text) in LOADS.iter() {
        assert!(rt;
            has_lines(rt, alloc, (*lines, *seed), size, text),
            "{seed} in {size}"
        );
    }
}

#[test]
fn a_seed_gives_its_lines_in_pieces_of_any_size(rt: HostRuntime) {
    check_loads(&rt, rt.alloc(), 1);
    check_loads(&rt, rt.alloc(), 7);
    check_loads(&rt, rt.alloc(), 4096);
}

/// Replies, the last without a line end.
const REPLIES: &[u8] =
    b"ok\nyes\nno\nok\nokay\nrefused duplicate e1\nrefused memory\nrefused memory \n\nlast seen 1\nok";

/// What is counted of them.
const COUNTED: Counts = Counts {
    ok: 2,
    yes: 1,
    no: 1,
    refused: 3,
    bytes: 85,
    memory: 1,
};

/// Whether all bytes are handed on, written in pieces of this size.
fn are_written(sink: &mut impl Sink, bytes: &[u8], size: usize) -> bool {
    for piece in bytes.chunks(size.max(1)) {
        if write_all(sink, piece).is_err() {
            return false;
        }
    }
    sink.flush().is_ok()
}

/// Whether the replies are counted, written in pieces of this size.
fn are_counted(size: usize) -> bool {
    let mut sink = TallySink::new();
    are_written(&mut sink, REPLIES, size) && sink.counts() == COUNTED
}

#[test]
fn replies_are_counted_in_pieces_of_any_size(rt: HostRuntime) {
    assert!(rt; are_counted(1) && are_counted(7) && are_counted(4096));
}

/// Counts whose sum is a long line.
const LARGE: Counts = Counts {
    ok: 18_446_744_073_709_551_615,
    yes: 2,
    no: 30,
    refused: 400,
    bytes: 5000,
    memory: 6,
};

/// The line that sums them up.
const SUMMARY: &[u8] =
    b"soak lines 4294967295 ok 18446744073709551615 yes 2 no 30 refused 400 bytes 5000\n";

/// Whether a sink takes the line.
fn is_summed_up(sink: &mut MemSink) -> bool {
    write_summary(4_294_967_295, &LARGE, &mut *sink).is_ok() && sink.bytes() == SUMMARY
}

#[test]
fn a_run_is_summed_up_in_a_line(rt: HostRuntime) {
    let mut sink = MemSink::new(rt.alloc(), 160, 7, &[], &[]).expect(&rt, "memory");
    assert!(rt; is_summed_up(&mut sink));
}
