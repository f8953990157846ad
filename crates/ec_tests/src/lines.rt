//! Lines and their replies.
use crate::cases::run_all;
use crate::dialogue::tell_all;
use crate::whole::{Case, SERVED, comes_out};

/// Lines, and the replies to them.
const REPLIES: &str = "\
# lines about one lamp
theory LAMP
input assert p 5 plug|holds powered 6|quit|holds powered 6| => 0 ok|yes|bye|
input assert p 5 plug|assert u 9 unplug|assert p 7 plug|holds powered 5|holds powered 9|holds powered 10| => 0 ok|ok|refused duplicate p|no|yes|no|
# a late event changes what was said before it
input assert p 5 plug|holds powered 9|assert u 7 unplug|holds powered 9|holds powered 7|retract u|holds powered 9| => 0 ok|yes|ok|no|yes|ok|yes|
# events told from the last to the first
input assert p 5 plug|assert u 3 unplug|holds powered 6|assert q 2 plug|holds powered 3|holds powered 4| => 0 ok|ok|yes|ok|yes|no|
# blanks, a comment, a prefix, a last line without its end
input assert  p\t5 plug |% note|| \t|@3 holds powered 6|holds powered 6 => 0 ok|@3 yes|yes|
# the last line may be `quit`
input assert p 5 plug|quit => 0 ok|bye|
# each command that is no assert and no holds, while nothing happened
input begin|commit|abort|through p 9 8|through p 8 9|intervals p|broken p|at 5|clashes|events|why p 5|last| => 0 ok|ok|refused no-draft|refused order|no|0|0|0|0|0|no never|last seen 0 on 0 off 0 props 0|
# no line
input => 0
# lines about lamps by name
theory LAMPS
# sessions share one history; a prefix is written back without leading zeros
input @3 assert p 5 plug(a)|retract z|intervals powered(a)|@64 last|@3|% note|@07 retract p| => 0 @3 ok|refused unknown z|1 (5,inf)|refused syntax|@3 refused syntax|@7 ok|
# one property is not the other
input assert p 5 plug(a)|holds powered(a) 6|holds powered(b) 6| => 0 ok|yes|no|
# no theory, which has no property
theory
input holds powered 6|assert p 5 plug|holds powered 6| => 0 no|ok|no|
# a test that an event does not meet
theory initiates move(P,X,Y) at(P,Y) if X != Y.
input assert m 1 move(bob,home,home)|holds at(bob,home) 2|assert n 1 move(bob,home,work)|holds at(bob,work) 2| => 0 ok|no|ok|yes|
";

#[test]
fn lines_have_their_replies_in_whatever_pieces_they_come(rt: HostRuntime) {
    run_all(&rt, rt.alloc(), "reads 1,2,3,7,4096", REPLIES);
}

/// Lines that are cut at any place. One carriage return before a line end is dropped, none elsewhere, and none at the end of the input.
const CUT: [Case<'static>; 2] = [
    Case {
        theory: "LAMPS",
        input: "assert p 5 plug(a)\r|\r|@7 holds powered(a) 6|@07 retract p\rx|retract p|%|holds powered(a) 6",
        written: "ok|@7 yes|@7 refused syntax|ok|no|",
        ..SERVED
    },
    Case {
        input: "% a comment as long as all that stands behind it, so that a piece may end there once|\
retract a\r||retract b\r\r|\r| retract c\t|\rretract d|retract e\r",
        written: "refused unknown a|refused syntax|refused unknown c|refused syntax|refused syntax|",
        ..SERVED
    },
];

#[test]
fn a_cut_at_any_place_changes_nothing(rt: HostRuntime) {
    for case in &CUT {
        for most in 1..=case.input.len() {
            assert!(rt; comes_out(&rt, rt.alloc(), case, most), "{most}");
        }
    }
}

/// Dialogues in which each command is told from the others by its reply, or by what it leaves.
const COMMANDS: &str = "\
# silent lines and updates
 =>
 \t  =>
% holds p 1 =>
 % =>
events => 0
\tassert\te \t1  plug(a)  => ok
events => 1 e 1 plug(a)
retract e => ok
events => 0
assert e 1 plug(a) => ok
assert if -007 not(if,7) => ok
assert e_1 2 plug => ok
@3 assert e_1 3 plug => @3 refused duplicate e_1
events => 3 if -7 not(if,7) e 1 plug(a) e_1 2 plug
begin => ok
retract e => drafted 1
abort => ok
events => 3 if -7 not(if,7) e 1 plug(a) e_1 2 plug
begin => ok
retract e => drafted 1
commit => ok
events => 2 if -7 not(if,7) e_1 2 plug
@0 quit => @0 bye
last =>
# queries ; theory initiates plug(L) p. initiates pull q. initiates put(X,Y) p(X,Y). exclusive p q.
assert a 0 plug(x) => ok
assert b 4 pull => ok
assert w 2 put(1,b) => ok
assert c 9 plug(y) => ok
assert d 9 pull => ok
last => last seen 0 on 0 off 0 props 1
holds p 1 => no
@63 holds p 1 => @63 no
holds p 10 => yes
through p 5 1 => refused order
through p 10 20 => yes
intervals p(1,b) => 1 (2,inf)
@12 intervals p => @12 1 (9,inf)
broken p => 1 0 4
at 9223372036854775807 => 3 p p(1,b) q
clashes => 1 9
events => 5 a 0 plug(x) w 2 put(1,b) b 4 pull c 9 plug(y) d 9 pull
why p 1 => no broken 0 4 by b rule 2
@07 last => @7 last seen 0 on 0 off 0 props 1
@00 last => @0 last seen 0 on 0 off 0 props 1
  @63\tlast => @63 last seen 0 on 0 off 0 props 1
quit => bye
last =>
# the parts of a command stand in their places ; theory initiates open(X,Y) door(X,Y). terminates shut(X,Y) door(X,Y).
assert o -6 open(7,a) => ok
assert s 10 shut(7,a) => ok
@9 through door(7,a) -5 010 => @9 yes
through door(7,a) -6 10 => no
through door(7,a) -5 11 => no
through door(a,7) -5 10 => no
assert e1 3 plug(a) => ok
events => 3 o -6 open(7,a) e1 3 plug(a) s 10 shut(7,a)
# full drafts of two sessions, and a commit that is refused at its last place, for a long name
@7 begin => @7 ok
1..1024: @7 assert d* * plug(a) => @7 drafted *
@7 retract z => @7 refused full-draft 1024
@63 begin => @63 ok
1..1023: @63 assert d* * plug(a) => @63 drafted *
@63 retract {64 e} => @63 drafted 1024
@63 commit => @63 refused commit 1024 unknown {64 e}
";

#[test]
fn each_command_has_its_reply(rt: HostRuntime) {
    tell_all(&rt, rt.alloc(), "", COMMANDS);
}

/// Lines that are refused, or silent: nothing is written to those.
const REFUSED: &str = "\
# prefixes, comments and blanks
input @64 last => 0 refused syntax|
input @ => 0 refused syntax|
input @ last => 0 refused syntax|
input @1 => 0 @1 refused syntax|
input @007 last => 0 refused syntax|
input @a last => 0 refused syntax|
input @-1 last => 0 refused syntax|
input @00 retract z => 0 @0 refused unknown z|
input @63\tretract\tz => 0 @63 refused unknown z|
input \t retract z \t => 0 refused unknown z|
input @5 % note => 0 @5 refused syntax|
input retract z % note => 0 refused syntax|
input % => 0
input  %last => 0
input \t => 0
# commands, and bytes that no command has
input last now => 0 refused syntax|
input retract => 0 refused syntax|
input retract Z => 0 refused syntax|
input retract z y => 0 refused syntax|
input assert p 5 plug (a) => 0 refused syntax|
input assert p 5 plug(a, b) => 0 refused syntax|
input assert p 5 plug() => 0 refused syntax|
input assert p 5 plug(a => 0 refused syntax|
input assert p +5 plug(a) => 0 refused syntax|
input assert p 000000000000000000005 plug(a) => 0 refused syntax|
input holds Lit 3 => 0 refused syntax|
input Last => 0 refused syntax|
input retract z\0 => 0 refused syntax|
input retract \u{e9} => 0 refused syntax|
input \x0bretract z => 0 refused syntax|
input last\r => 0 refused syntax|
input last\r\r| => 0 refused syntax|
input last\0 => 0 refused syntax|
input last\x0b => 0 refused syntax|
input ODD_BLANK last => 0 refused syntax|
# prefixes that are no sessions, and a prefix before another or before nothing
input @99 last => 0 refused syntax|
input @1a last => 0 refused syntax|
input @1 @2 last => 0 @1 refused syntax|
input @3  => 0 @3 refused syntax|
# words that are like commands, and words that are too few or too many
input last % => 0 refused syntax|
input last last => 0 refused syntax|
input LAST => 0 refused syntax|
input lasts => 0 refused syntax|
input las => 0 refused syntax|
input holds => 0 refused syntax|
input holds p => 0 refused syntax|
input holds 1 p => 0 refused syntax|
input holds p 1 2 => 0 refused syntax|
input holds p(a, b) 1 => 0 refused syntax|
input holds p() 1 => 0 refused syntax|
input holds P 1 => 0 refused syntax|
input holds p +1 => 0 refused syntax|
input holds p(1,2,3,4,5,6,7,8,9) 1 => 0 refused syntax|
input through p 1 => 0 refused syntax|
input at 9223372036854775808 => 0 refused syntax|
input assert e 1 plug(a)x => 0 refused syntax|
input assert e(a) 1 plug => 0 refused syntax|
";

#[test]
fn bad_prefixes_and_commands_are_refused_and_silent_lines_are_not_answered(rt: HostRuntime) {
    run_all(&rt, rt.alloc(), "theory LAMPS", REFUSED);
}

/// Lines of so many spaces behind a query or within a comment, their ends, and what is written.
const LONG: &str = "\
input holds powered(a) 6{4078  }\r|retract z| => 0 no|refused unknown z|
input holds powered(a) 6{4079  }\r|retract z| => 0 refused long-line|refused unknown z|
input holds powered(a) 6{4078  }\r\r|retract z| => 0 refused long-line|refused unknown z|
input holds powered(a) 6{4077  }|retract z| => 0 no|refused unknown z|
input holds powered(a) 6{4078  }|retract z| => 0 no|refused unknown z|
input holds powered(a) 6{4079  }|retract z| => 0 refused long-line|refused unknown z|
input {9000 x}|retract z| => 0 refused long-line|refused unknown z|
input holds powered(a) 6{4078  } => 0 no|
# a carriage return at the end of the input is no line end, but a word
input holds powered(a) 6{4077  }\r => 0 refused syntax|
input holds powered(a) 6{4078  }\r => 0 refused long-line|
# comments
input % a note{4088  }| => 0
input % a note{4089  }| => 0 refused long-line|
# nobody reads the prefix of a long line
input @9 % a note{4086  }| => 0 refused long-line|
input {4097  }|retract z| => 0 refused long-line|refused unknown z|
";

#[test]
fn a_line_of_more_than_4096_bytes_is_long(rt: HostRuntime) {
    run_all(&rt, rt.alloc(), "theory LAMPS ; reads 1,4096", LONG);
}
