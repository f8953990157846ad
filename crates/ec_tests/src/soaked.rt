//! Runs over generated lines.
use crate::cases::run_all;

/// Each call on the folder and on the input would fail.
const GIVEN: &str = "input quit| ; writes 8 ; file 1 fails ; read 1 fails";

const FEW: &str = "\
# one line, also where a flush or a write fails
words soak,1,0 => 0 soak lines 1 ok 1 yes 0 no 0 refused 0 bytes 3|
words soak,000001,00000000000000000000 => 0 soak lines 1 ok 1 yes 0 no 0 refused 0 bytes 3|
words soak,1,0 ; flush 1 fails => 5 soak lines 1 ok 1 yes 0 no 0 refused 0 bytes 3|
words soak,1,0 ; write 1 fails => 5
words soak,1,0 ; write 2 fails => 5 soak lin
# lines of two seeds, as an independent program told
words soak,2000,7 => 0 soak lines 2000 ok 1052 yes 22 no 583 refused 124 bytes 11620|
words soak,100,18446744073709551615 => 0 soak lines 100 ok 54 yes 0 no 26 refused 8 bytes 595|
";

#[test]
fn a_seed_gives_the_same_lines_each_time_which_are_served_and_counted(rt: HostRuntime) {
    for _ in 0..2 {
        run_all(&rt, rt.alloc(), GIVEN, FEW);
    }
}

/// Many lines of a seed, up to as many as may be, as an independent program told.
const MANY: &str = "\
words soak,20000,7 => 0 soak lines 20000 ok 10825 yes 580 no 5407 refused 1146 bytes 177596|
words soak,100000,7 => 0 soak lines 100000 ok 54392 yes 3267 no 26665 refused 5568 bytes 2229629|
";

#[test]
fn many_generated_lines_are_served(rt: HostRuntime) {
    run_all(&rt, rt.alloc(), GIVEN, MANY);
}
