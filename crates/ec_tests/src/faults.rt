//! Words without a shape, and faults of the outside.
use crate::cases::run_all;
use crate::dialogue::Script;
use crate::whole::{Case, Failing, SERVED, comes_out};
use ec_layers::tables::row_of;
use std::alloc::Global;
use std::process::Abort;

const SHAPELESS: &str = "\
theory LAMP ; input assert p 5 plug|holds powered 6|quit|holds powered 6|
gives 2 usage: ec check THEORY / serve THEORY / replay THEORY LINES / soak N SEED / prove THEORY LINES P T / verify THEORY LINES CERT P T|
# too few files or too many, or no command
words =>
words serve =>
words check =>
words serve,t.ec,t.ec =>
words replay,t.ec =>
words replay,t.ec,t.ec,t.ec =>
words --help =>
words --version =>
words Serve,t.ec =>
# no number of lines, or no seed
words soak,1 =>
words soak,0,1 =>
words soak,000000,1 =>
words soak,100001,1 =>
words soak,0000001,1 =>
words soak,,1 =>
words soak,1, =>
words soak,+1,1 =>
words soak,1,-1 =>
words soak,1,1\x20 =>
words soak,1,18446744073709551616 =>
words soak,1,000000000000000000000 =>
words soak,1,1,1 =>
# no property, too few words or too many
words prove,t.ec,a.lines,lit(a),11,11 =>
words prove,t.ec,a.lines,lit(a) =>
words prove,t.ec,a.lines,Lit(a),11 =>
words prove,t.ec,a.lines,lit(,11 =>
words prove,t.ec,a.lines,lit(a)\x20,11 =>
words prove,t.ec,a.lines,,11 =>
words verify,t.ec,a.lines,lit(a),11 =>
words verify,t.ec,a.lines,a.cert,lit,11,11 =>
words verify,t.ec,a.lines,a.cert,lit(),11 =>
";

#[test]
fn words_without_a_shape_get_the_usage_line(rt: HostRuntime) {
    run_all(&rt, rt.alloc(), "", SHAPELESS);
}

const FAULTS: &str = "\
theory LAMP ; input assert p 5 plug|holds powered 6|quit|holds powered 6| ; writes 1
reads 16
# nothing fails
 => 0 ok|yes|bye|
# a file that there is not
words serve,u.ec => 7
# a call on the folder, a read and a write
file 1 fails => 7
read 2 fails => 4 ok|
write 3 fails => 5 ok
# the flush before the first read, the one before the second, and the one behind `quit`
flush 1 fails => 5
flush 2 fails => 5 ok|
flush 2 fails ; reads 4096 => 5 ok|yes|bye|
# a reply that is written in part
theory initially powered. ; input @7 holds powered 6| ; writes 2 ; write 4 fails => 5 @7 ye
# a failing write leaves the status of bad words and theories
reads 4096
words serve ; write 1 fails => 2
words serve ; write 6 fails => 2 usage
words check,t.ec ; theory initiates a b; ; write 1 fails => 3
words serve,t.ec ; theory initiates a b; ; write 8 fails => 3 theory{1  }
# faults of a check, which reads no input: if it did, that would fail
reads 1 ; read 1 fails ; words check,t.ec
file 1 fails => 7
write 1 fails => 5
write 10 fails => 5 accepted{1  }
flush 1 fails => 5 accepted rules 2 exclusives 0 strongs 0|
";

#[test]
fn faults_of_the_outside_have_their_statuses(rt: HostRuntime) {
    run_all(&rt, rt.alloc(), "", FAULTS);
}

/// Lines without a `quit` behind them, each with its reply.
const PUSHED: &str = "\
assert p 5 plug(a) => ok
assert q 10 push(bob,a) => ok
holds lit(a) 10 => no
holds lit(a) 11 => yes
intervals lit(a) => 1 (10,inf)
";

/// Those lines, and the replies to the ones that are whole within the first `taken` bytes.
fn pushed(rt: &impl Abort, alloc: Global, taken: usize) -> Script {
    let mut script = Script::new(alloc);
    for row in PUSHED.lines() {
        if let Some((line, reply)) = row_of(row) {
            let end = script
                .lines
                .len()
                .saturating_add(line.len())
                .saturating_add(1);
            script.add(rt, line, if end <= taken { reply } else { "" });
        }
    }
    script
}

/// Whether a run over those lines ends with a status where a call fails, and has written at most `written` bytes of the replies to
/// what stands in the first `taken`. A read gives at most `most` bytes, and a write takes one.
fn stops(
    rt: &impl Abort,
    alloc: Global,
    (failing, status): (Failing, u8),
    (taken, written): (usize, usize),
    most: usize,
) -> bool {
    let script = pushed(rt, alloc, taken);
    let replies = script.replies.as_str();
    let case = Case {
        theory: "ROOMS",
        input: script.lines.as_str(),
        writes: 1,
        failing,
        status,
        written: replies.get(..written).unwrap_or(replies),
        ..SERVED
    };
    comes_out(rt, alloc, &case, most)
}

/// Whether the write of a number stops a run. There are 24, as many as replied bytes.
fn stops_at_write(rt: &impl Abort, alloc: Global, number: usize) -> bool {
    let failing = Failing {
        write: number as u64,
        ..SERVED.failing
    };
    let status = if number <= 24 { 5 } else { 0 };
    let written = number.saturating_sub(1);
    stops(rt, alloc, (failing, status), (usize::MAX, written), 16)
}

#[test]
fn any_write_may_fail(rt: HostRuntime) {
    for number in 1..=25 {
        assert!(rt; stops_at_write(&rt, rt.alloc(), number), "write {number}");
    }
}

/// Whether the read and the flush behind so many stop a run, where its lines take `reads` of `most` bytes with the one that finds their
/// end. A flush stands before each read, and one before the end.
fn stops_behind(rt: &impl Abort, alloc: Global, before: u64, reads: u64, most: usize) -> bool {
    let number = before.saturating_add(1);
    let read = Failing {
        read: number,
        ..SERVED.failing
    };
    let flush = Failing {
        flush: number,
        ..SERVED.failing
    };
    let at_read = if before < reads { 4 } else { 0 };
    let at_flush = if before <= reads { 5 } else { 0 };
    let answered = (most.saturating_mul(before as usize), usize::MAX);
    stops(rt, alloc, (read, at_read), answered, most)
        && stops(rt, alloc, (flush, at_flush), answered, most)
}

#[test]
fn any_read_and_any_flush_may_fail(rt: HostRuntime) {
    for (most, reads) in [(1, 93), (19, 6), (22, 6), (4_096, 2)] {
        for before in 0..95 {
            assert!(rt;
                stops_behind(&rt, rt.alloc(), before, reads, most),
                "{most}: {before}"
            );
        }
    }
}
