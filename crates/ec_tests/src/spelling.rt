//! Names, numbers and terms as lines spell them, and as replies write them.
use crate::dialogue::tell_all;

/// Dialogues under no theory but that of a heading. A name, a number and a term each take their whole word.
const DIALOGUES: &str = "\
# names, of an event and of a property
retract plug => refused unknown plug
retract a_Z9 => refused unknown a_Z9
retract plug(a) => refused syntax
retract Plug => refused syntax
retract 9a => refused syntax
retract _a => refused syntax
retract a-b => refused syntax
retract => refused syntax
holds plug 1 => no
holds plug(a) 1 => no
holds a_Z9 1 => no
holds Plug 1 => refused syntax
holds 9a 1 => refused syntax
holds _a 1 => refused syntax
holds (a) 1 => refused syntax
assert a_Z9 1 b => ok
retract a_Z9 b => refused syntax
retract a_Z9 => ok
# names of 64 bytes and of 65
retract abcdefghijklmnopqrstuvwxyz_0123456789_ABCDEFGHIJKLMNOPQRSTUVWXYZ => refused unknown abcdefghijklmnopqrstuvwxyz_0123456789_ABCDEFGHIJKLMNOPQRSTUVWXYZ
retract abcdefghijklmnopqrstuvwxyz_0123456789_ABCDEFGHIJKLMNOPQRSTUVWXYZ9 => refused syntax
holds abcdefghijklmnopqrstuvwxyz_0123456789_ABCDEFGHIJKLMNOPQRSTUVWXYZ 1 => no
holds abcdefghijklmnopqrstuvwxyz_0123456789_ABCDEFGHIJKLMNOPQRSTUVWXYZ9 1 => refused syntax
# names are equal and ordered by their bytes ; theory initiates see(X) seen(X).
assert lit 1 see(lit) => ok
assert lamps 1 see(lamps) => ok
assert lamp 1 see(lamp) => ok
assert lamp 2 see(lamp) => refused duplicate lamp
events => 3 lamp 1 see(lamp) lamps 1 see(lamps) lit 1 see(lit)
at 2 => 3 seen(lamp) seen(lamps) seen(lit)
# numbers
at => refused syntax
at - => refused syntax
at --1 => refused syntax
at +1 => refused syntax
at a1 => refused syntax
at 007) => refused syntax
at 12-3 => refused syntax
at 9223372036854775807, => refused syntax
at 000000000000000000012 => refused syntax
at 00000000000000000012 => 0
at -9223372036854775808  => 0
holds lit(-) 1 => refused syntax
holds lit(--1) 1 => refused syntax
holds lit(+1) 1 => refused syntax
holds lit(12-3) 1 => refused syntax
holds lit(000000000000000000012) 1 => refused syntax
assert a 007 lit(007) => ok
assert b -0 lit(-0) => ok
assert c 00000000000000000012 lit(00000000000000000012) => ok
assert d 9223372036854775807 lit(9223372036854775807,a1) => ok
assert e -9223372036854775808 lit(-9223372036854775808) => ok
events => 5 e -9223372036854775808 lit(-9223372036854775808) b 0 lit(0) a 7 lit(7) c 12 lit(12) d 9223372036854775807 lit(9223372036854775807,a1)
# terms
assert a 1 plug => ok
assert b 1 plug  => ok
assert c 1 lit(007) => ok
assert d 1 lit(-0,-5) => ok
assert e 1 p(1,2,3,4,5,6,7,8) => ok
assert f 1 abcdefghijklmnopqrstuvwxyz_0123456789_ABCDEFGHIJKLMNOPQRSTUVWXYZ => ok
assert g 1 on(lamp,-3,high) => ok
events => 7 a 1 plug b 1 plug c 1 lit(7) d 1 lit(0,-5) e 1 p(1,2,3,4,5,6,7,8) f 1 abcdefghijklmnopqrstuvwxyz_0123456789_ABCDEFGHIJKLMNOPQRSTUVWXYZ g 1 on(lamp,-3,high)
# what is no term
assert z 1 => refused syntax
assert z 1 plug) => refused syntax
assert z 1 plug() => refused syntax
assert z 1 plug( => refused syntax
assert z 1 plug(a => refused syntax
assert z 1 plug(a,) => refused syntax
assert z 1 plug(,a) => refused syntax
assert z 1 plug(a b) => refused syntax
assert z 1 plug(A) => refused syntax
assert z 1 Plug(a) => refused syntax
assert z 1 lit(-0,-5)x => refused syntax
assert z 1 at(a1,9223372036854775808) => refused syntax
assert z 1 p(1,2,3,4,5,6,7,8,9) => refused syntax
assert z 1 abcdefghijklmnopqrstuvwxyz_0123456789_ABCDEFGHIJKLMNOPQRSTUVWXYZ9 => refused syntax
events => 0
";

#[test]
fn words_are_read_whole_and_written_in_one_way(rt: HostRuntime) {
    tell_all(&rt, rt.alloc(), "", DIALOGUES);
}
