//! Files of lines that are replayed.
use crate::cases::run_all;

/// Replays where the input would fail if it was read.
const REPLAYED: &str = "\
words replay,t.ec,a.lines ; theory LAMPS ; input holds p 1| ; read 1 fails ; writes 1
lines holds p 1|quit|holds p 1| => 0 no|bye|
lines => 0
lines assert p 5 plug(a)\r|holds powered(a) 6|% a note|intervals powered(a)
 => 0 ok|yes|1 (5,inf)|
# the text of a theory is one line that is no command
words replay,t.ec,t.ec => 0 refused syntax|
# a file that there is not
words replay,t.ec,other.lines => 7
words replay,other.ec,a.lines => 7
# a bad theory comes first
theory initiates a => 3 theory 1 12 syntax|
theory initiates a ; words replay,t.ec,other.lines => 3 theory 1 12 syntax|
# a fault of the file of the theory, and of that of the lines
file 1 fails => 7
file 2 fails => 7
# a fault of a write, of the flush before the first read, and of the one at the end
write 4 fails => 5 ok|
flush 1 fails => 5
flush 3 fails => 5 ok|yes|1 (5,inf)|
";

#[test]
fn the_lines_of_a_file_are_replayed_and_faults_told(rt: HostRuntime) {
    run_all(&rt, rt.alloc(), "", REPLAYED);
}

/// Lines of blanks alone: as many as may be, and one more.
const LENGTHS: &str = "\
lines {67108864  } => 0 refused long-line|
lines {67108865  } => 9
";

#[test]
fn the_file_of_lines_has_a_limit(rt: HostRuntime) {
    run_all(
        &rt,
        rt.alloc(),
        "words replay,t.ec,a.lines ; theory LAMPS ; reads 1",
        LENGTHS,
    );
}
