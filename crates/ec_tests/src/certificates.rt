//! Certificates: written, and verified beside their labels.
use crate::cases::run_all;

/// A lamp that is plugged at 5 and pushed at 10, by someone who moved at 3. The input would fail if it was read.
const PUSHED: &str =
    "theory ROOMS ; lines assert m1 3 move(bob,home)|assert p 5 plug(a)|assert q 10 push(bob,a)| ; input holds p 1| ; read 1 fails ; writes 3";

const WRITTEN: &str = "\
words prove,t.ec,a.lines,lit(a),11 => 0 certificate lit(a) 11|p 1|q 10|end 2|
words prove,t.ec,a.lines,lit(a),10 => 0 none|
# the property and the time are written in canonical text, and lines come in any order
words prove,t.ec,a.lines,lit(a),011 => 0 certificate lit(a) 11|p 1|q 10|end 2|
lines assert q 10 push(bob,a)|% a note|  |assert p 5 plug(a)\r| ; words prove,t.ec,a.lines,lit(a),11 => 0 certificate lit(a) 11|p 1|q 10|end 2|
# an event whose entries all lie outside has no line, and an exclusive property is followed
words prove,t.ec,a.lines,powered(a),6 => 0 certificate powered(a) 6|p 1|end 1|
lines assert m 3 move(b,h)|assert n 4 move(b,g)|assert l 9 leave(b,g) ; words prove,t.ec,a.lines,at,5 => 0 none|
theory exclusive on off. initiates start on. initiates stop off. ; lines assert a 1 start|assert b 5 stop|assert c 7 start| ; words prove,t.ec,a.lines,on,8 => 0 certificate on 8|a 1|b 1|c 1|end 3|
# an initial property holds by no event, and what the theory does not know holds nowhere
theory initially on. ; lines ; words prove,t.ec,a.lines,on,8 => 0 certificate on 8|end 0|
theory initially on. ; lines ; words prove,t.ec,a.lines,off,8 => 0 none|
# civil times
theory time civil. initiates join member. ; lines assert j 2024-02-29T09:00:00Z join ; words prove,t.ec,a.lines,member,2024-03-01T00:00:00Z => 0 certificate member 2024-03-01T00:00:00Z|j 1|end 1|
";

#[test]
fn certificates_are_written_where_the_property_holds(rt: HostRuntime) {
    run_all(&rt, rt.alloc(), PUSHED, WRITTEN);
}

const VERIFIED: &str = "\
words verify,t.ec,a.lines,a.cert,lit(a),11
certificate certificate lit(a) 11|p 1|q 10|end 2| => 0 yes|
# each line, where it is another
certificate certificate lit(a) 12|p 1|q 10|end 2| => 0 bad 1|
certificate certificate lit(a) 11|p 0|q 10|end 2| => 0 bad 2|
certificate certificate lit(a) 11|p 1|q 00|end 2| => 0 bad 3|
certificate certificate lit(a) 11|p 1|q 11|end 2| => 0 bad 3|
certificate certificate lit(a) 11|p 1|q 10|end 3| => 0 bad 4|
# lines that are left out, doubled, swapped, or of another event
certificate certificate lit(a) 11|q 10|end 1| => 0 bad 2|
certificate certificate lit(a) 11|p 1|p 1|q 10|end 3| => 0 bad 3|
certificate certificate lit(a) 11|q 10|p 1|end 2| => 0 bad 2|
certificate certificate lit(a) 11|m1 1|p 1|q 10|end 3| => 0 bad 2|
# nothing, no end of the last line, and a byte too much
certificate => 0 bad 1|
certificate certificate lit(a) 11|p 1|q 10|end 2 => 0 bad 4|
certificate certificate lit(a) 11|p 1|q 10|end 2|x => 0 bad 5|
certificate certificate lit(a) 11\r|p 1|q 10|end 2| => 0 bad 1|
certificate none| => 0 bad 1|
# the label of a property that does not hold
words verify,t.ec,a.lines,a.cert,lit(a),10 ; certificate certificate lit(a) 10|p 1|q 10|end 2| => 0 no|
words verify,t.ec,a.lines,a.cert,off,7 ; certificate certificate off 7|end 0| => 0 no|
";

#[test]
fn certificates_come_to_yes_no_or_the_line_that_is_bad(rt: HostRuntime) {
    run_all(&rt, rt.alloc(), PUSHED, VERIFIED);
}

/// Statuses in their order: theory, time, event file, certificate, output.
const STATUSES: &str = "\
certificate certificate lit(a) 11|p 1|q 10|end 2|
words verify,other.ec,other.lines,other.cert,lit(a),x => 7
theory initiates a ; words verify,t.ec,other.lines,other.cert,lit(a),x => 3 theory 1 12 syntax|
words verify,t.ec,other.lines,other.cert,lit(a),x => 2 usage: ec check THEORY / serve THEORY / replay THEORY LINES / soak N SEED / prove THEORY LINES P T / verify THEORY LINES CERT P T|
words verify,t.ec,other.lines,other.cert,lit(a),11 => 7
lines retract q ; words verify,t.ec,a.lines,other.cert,lit(a),11 => 10 events 1 syntax|
words verify,t.ec,a.lines,other.cert,lit(a),11 => 7
# what is no event file
words prove,t.ec,a.lines,lit(a),11
lines assert p 5 plug(a)|assert q 6 plug(a)|assert q 7 plug(a)|retract q| => 10 events 3 duplicate|
lines assert p 5 plug(a)|assert q 6 plug(a)|% a note||retract q| => 10 events 5 syntax|
lines @0 assert p 5 plug(a) => 10 events 1 syntax|
lines assert p 5 plug(a)|quit => 10 events 2 syntax|
lines asof 0 events => 10 events 1 syntax|
lines assert p 2024-02-29T09:00:00Z plug(a) => 10 events 1 syntax|
lines {4097 x} => 10 events 1 syntax|
lines => 0 none|
# a fault of a call on the folder, of a write, also within the line about the events, and of the flush
file 1 fails => 7
file 2 fails => 7
words verify,t.ec,a.lines,a.cert,lit(a),11 ; file 3 fails => 7
write 3 fails => 5 certif
flush 1 fails => 5 certificate lit(a) 11|p 1|q 10|end 2|
words verify,t.ec,a.lines,a.cert,lit(a),11 ; write 1 fails => 5
words verify,t.ec,a.lines,a.cert,lit(a),11 ; flush 1 fails => 5 yes|
lines quit ; write 2 fails => 10 eve
words prove,t.ec,a.lines,lit(a),x ; write 2 fails => 2 usa
";

#[test]
fn the_statuses_of_a_claim_come_in_their_order(rt: HostRuntime) {
    run_all(&rt, rt.alloc(), PUSHED, STATUSES);
}

/// Lines of blanks alone, or certificates: as many bytes as may be, and one more.
const LENGTHS: &str = "\
words prove,t.ec,a.lines,lit(a),11 ; lines {67108865  } => 9
words verify,t.ec,a.lines,a.cert,lit(a),11 ; certificate {67108865 x} => 9
words verify,t.ec,a.lines,a.cert,lit(a),11 ; certificate {67108864 x} => 0 bad 1|
";

#[test]
fn the_event_file_and_the_certificate_have_a_limit(rt: HostRuntime) {
    run_all(&rt, rt.alloc(), PUSHED, LENGTHS);
}
