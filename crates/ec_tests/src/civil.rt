//! Dialogues in civil times.
use crate::dialogue::tell_all;

/// Dialogues under theories that say `time civil.`, but for the last.
const DIALOGUES: &str = "\
# a membership that ends on the day behind 29 February ; theory time civil. initiates join(M) member(M). terminates leave(M) member(M).
assert j 2024-02-29T09:00:00Z join(ann) => ok
assert l 2024-03-01T09:00:00Z leave(ann) => ok
intervals member(ann) => 1 (2024-02-29T09:00:00Z,2024-03-01T09:00:00Z]
holds member(ann) 2024-02-29T09:00:00Z => no
holds member(ann) 2024-03-01T09:00:00Z => yes
holds member(ann) 2023-02-29T00:00:00Z => refused syntax
holds member(ann) 2024-06-30T23:59:60Z => refused syntax
holds member(ann) 5 => refused syntax
# sessions, drafts, reasons and counts ; theory terminates leave(M) member(M). initiates join(M) member(M). time civil.
@3 begin => @3 ok
@3 assert j 2023-12-31T23:59:59Z join(bob) => @3 drafted 1
@3 assert l 2024-02-29T12:00:00Z leave(bob) => @3 drafted 2
@3 assert k 2024-02-29T11:59:59Z join(ann) => @3 drafted 3
at 2024-01-01T00:00:00Z => 0
@3 commit => @3 ok
last => last seen 0 on 0 off 0 props 2
at 2024-01-01T00:00:00Z => 1 member(bob)
why member(bob) 2024-02-29T12:00:00Z => yes 2023-12-31T23:59:59Z 2024-02-29T12:00:00Z by j rule 2 until l rule 1
why member(bob) 2024-02-29T12:00:01Z => no ended 2023-12-31T23:59:59Z 2024-02-29T12:00:00Z by l rule 1
events => 3 j 2023-12-31T23:59:59Z join(bob) k 2024-02-29T11:59:59Z join(ann) l 2024-02-29T12:00:00Z leave(bob)
through member(bob) 2023-12-31T23:59:59Z 2024-02-29T12:00:00Z => no
through member(bob) 2024-01-01T00:00:00Z 2024-02-29T12:00:00Z => yes
through member(bob) 2024-02-29T12:00:00Z 2024-01-01T00:00:00Z => refused order
retract l => ok
last => last seen 0 on 0 off 0 props 1
intervals member(bob) => 1 (2023-12-31T23:59:59Z,inf)
# a number in a term is a number ; theory time civil. initiates set(N) level(N).
assert s 2024-06-30T00:00:00Z set(5) => ok
holds level(5) 2024-06-30T00:00:01Z => yes
holds level(2024-06-30T00:00:01Z) 2024-06-30T00:00:01Z => refused syntax
# the first time and the last ; theory time civil. initiates come here. initially there.
assert z 9999-12-31T23:59:59Z come => ok
intervals here => 1 (9999-12-31T23:59:59Z,inf)
assert a 0000-01-01T00:00:00Z come => ok
intervals here => 1 (0000-01-01T00:00:00Z,inf)
holds here 0000-01-01T00:00:00Z => no
holds here 0000-01-01T00:00:01Z => yes
through here 0000-01-01T00:00:00Z 9999-12-31T23:59:59Z => no
through there 0000-01-01T00:00:00Z 9999-12-31T23:59:59Z => yes
intervals there => 1 (-inf,inf)
events => 2 a 0000-01-01T00:00:00Z come z 9999-12-31T23:59:59Z come
# whole numbers and no civil times ; theory time tick. initiates come here.
assert a -5 come => ok
assert b 2024-06-30T00:00:00Z come => refused syntax
intervals here => 1 (-5,inf)
holds here 2024-06-30T00:00:00Z => refused syntax
# without a word on time too ; theory initiates come here.
assert a 2024-06-30T00:00:00Z come => refused syntax
assert a 5 come => ok
";

#[test]
fn dialogues_in_civil_times_have_their_replies(rt: HostRuntime) {
    tell_all(&rt, rt.alloc(), "reads 1,4096", DIALOGUES);
}

/// Words, and whether they spell a civil time.
const SPELLINGS: &str = "\
# days that a month has, and those that it has not ; theory time civil. initially here.
holds here 0000-02-29T00:00:00Z => yes
holds here 1900-02-28T00:00:00Z => yes
holds here 1900-02-29T00:00:00Z => refused syntax
holds here 2000-02-29T00:00:00Z => yes
holds here 2000-02-30T00:00:00Z => refused syntax
holds here 2023-02-29T00:00:00Z => refused syntax
holds here 2024-04-30T00:00:00Z => yes
holds here 2024-04-31T00:00:00Z => refused syntax
holds here 2024-04-00T00:00:00Z => refused syntax
holds here 2024-12-31T00:00:00Z => yes
holds here 2024-12-32T00:00:00Z => refused syntax
holds here 2024-00-10T00:00:00Z => refused syntax
holds here 2024-13-10T00:00:00Z => refused syntax
# times of a day ; theory time civil. initially here.
holds here 2024-06-30T23:59:59Z => yes
holds here 2024-06-30T24:00:00Z => refused syntax
holds here 2024-06-30T23:60:00Z => refused syntax
holds here 2024-06-30T23:59:60Z => refused syntax
# letters, blanks, zones and parts of a second ; theory time civil. initially here.
holds here 2024-06-30t00:00:00Z => refused syntax
holds here 2024-06-30T00:00:00z => refused syntax
holds here 2024-06-30 00:00:00Z => refused syntax
holds here 2024-06-3000:00:00Z => refused syntax
holds here 2024-06-30T00:00:00 => refused syntax
holds here 2024-06-30T00:00:00+00:00 => refused syntax
holds here 2024-06-30T00:00:00.0Z => refused syntax
holds here 2024-06-30T00:00:00ZZ => refused syntax
holds here 2024-06-30T00:00Z => refused syntax
holds here 2024-06-30 => refused syntax
holds here 2024/06/30T00:00:00Z => refused syntax
# years of other lengths, and signs ; theory time civil. initially here.
holds here 10000-06-30T00:00:00Z => refused syntax
holds here -001-06-30T00:00:00Z => refused syntax
holds here +024-06-30T00:00:00Z => refused syntax
holds here 024-06-30T00:00:00Z => refused syntax
# a byte behind the digits, in the place of each ; theory time civil. initially here.
holds here :000-01-01T00:00:00Z => refused syntax
holds here 0:00-01-01T00:00:00Z => refused syntax
holds here 00:0-01-01T00:00:00Z => refused syntax
holds here 000:-01-01T00:00:00Z => refused syntax
holds here 0000-:1-01T00:00:00Z => refused syntax
holds here 0000-0:-01T00:00:00Z => refused syntax
holds here 0000-01-:1T00:00:00Z => refused syntax
holds here 0000-01-0:T00:00:00Z => refused syntax
holds here 0000-01-01T:0:00:00Z => refused syntax
holds here 0000-01-01T0::00:00Z => refused syntax
holds here 0000-01-01T00::0:00Z => refused syntax
holds here 0000-01-01T00:0::00Z => refused syntax
holds here 0000-01-01T00:00::0Z => refused syntax
holds here 0000-01-01T00:00:0:Z => refused syntax
";

#[test]
fn a_civil_time_has_one_spelling(rt: HostRuntime) {
    tell_all(&rt, rt.alloc(), "", SPELLINGS);
}
