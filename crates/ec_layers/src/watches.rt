//! What sessions watch: which watches are refused, and in which order the properties stand.
ghost use Rattle.std.specs.Prelude.{◌<◌};
ghost use Rattle.ec_commands.specs.declared.limits.TheConstants.{SESSIONS};

use crate::tables::row_of;
use crate::terms::term_of;
use ec_commands::SESSIONS;
use ec_terms::text;
use ec_watch::{Row, WatchRefusal, Watches};
use std::alloc::Global;
use std::process::Abort;

/// Calls one after the other, each with its answer: `watch` and `unwatch`, and whether a property `is` watched, by a session; the place
/// that `find` finds for a property; and the `rows`, each a property with the sessions that watch it.
const CALLS: &str = "
rows . . =>
unwatch 0 lit(b) => no
find . lit(b) => none
watch 0 lit(b) => ok
watch 0 lit(b) => watched
watch 63 lit(b) => ok
watch 63 lit(b) => watched
is 0 lit(b) => yes
is 63 lit(b) => yes
is 1 lit(b) => no
is 0 lit(a) => no
rows . . => lit(b) 0 63;
# by name, then by number of arguments, then by the arguments, numbers first
watch 2 lit(a) => ok
watch 2 on(a,b) => ok
watch 2 lit => ok
watch 2 lit(-7) => ok
watch 2 lit(10) => ok
watch 2 lit(a,a) => ok
watch 2 at(bob,home) => ok
watch 0 lit(a) => ok
rows . . => at(bob,home) 2; lit 2; lit(-7) 2; lit(10) 2; lit(a) 0 2; lit(b) 0 63; lit(a,a) 2; on(a,b) 2;
find . at(bob,home) => 0
find . lit(b) => 5
find . on(a,b) => 7
find . on(a) => none
find . a => none
find . zoo => none
# a row stays while a session watches its property
unwatch 2 lit(a) => yes
unwatch 2 lit(a) => no
find . lit(a) => 4
unwatch 0 lit(a) => yes
unwatch 0 lit(a) => no
find . lit(a) => none
unwatch 1 lit(b) => no
unwatch 0 lit(b) => yes
is 0 lit(b) => no
is 63 lit(b) => yes
rows . . => at(bob,home) 2; lit 2; lit(-7) 2; lit(10) 2; lit(b) 63; lit(a,a) 2; on(a,b) 2;
watch 0 lit(b) => ok
rows . . => at(bob,home) 2; lit 2; lit(-7) 2; lit(10) 2; lit(b) 0 63; lit(a,a) 2; on(a,b) 2;
";

/// Calls up to as many watches as a session may have. `fill` watches `p(0)` to `p(99)`, and is answered by how many are not refused.
const FULL: &str = "
watch 5 p(3) => ok
fill 5 . => 63
watch 5 q => full
watch 5 p(3) => watched
watch 5 p(99) => full
watch 6 q => ok
watch 5 q => full
unwatch 5 q => no
unwatch 5 p(40) => yes
watch 5 p(40) => ok
watch 5 p(40) => watched
unwatch 5 p(63) => yes
watch 5 q => ok
watch 5 p(63) => full
fill 63 . => 64
watch 63 p(64) => full
watch 63 p(63) => watched
";

/// The session that is spelt.
fn session_of(rt: &impl Abort, spelt: &str) -> u8
    ensures { result < SESSIONS }
{
    let session = spelt.parse::<u8>().expect(rt, "a session");
    assert!(rt; session < SESSIONS);
    session
}

/// The answer to a watch.
fn watch(rt: &impl Abort, watches: &mut Watches, session: &str, prop: &str) -> &'static str {
    match watches.watch(session_of(rt, session), &term_of(rt, prop)) {
        Ok(()) => "ok",
        Err(WatchRefusal::Watched) => "watched",
        Err(WatchRefusal::Full) => "full",
    }
}

/// Whether a session watched a property that it watches no more.
fn unwatch(rt: &impl Abort, watches: &mut Watches, session: &str, prop: &str) -> bool {
    watches.unwatch(session_of(rt, session), &term_of(rt, prop))
}

/// Whether a session watches a property.
fn is_watched(rt: &impl Abort, watches: &Watches, session: &str, prop: &str) -> bool {
    watches.is_watched(session_of(rt, session), &term_of(rt, prop))
}

/// Whether a property has this place, or none.
fn has_place(rt: &impl Abort, watches: &Watches, prop: &str, wanted: &str) -> bool {
    watches.find(&term_of(rt, prop)) == wanted.parse::<usize>().ok()
}

/// Adds the property of a row, and the sessions that watch it.
fn tell(rt: &impl Abort, told: &mut String, row: &Row) {
    write!(told, "{}", text(&row.prop())).expect(rt, "memory");
    for session in 0..SESSIONS {
        if row.is_watched_by(session) {
            write!(told, " {session}").expect(rt, "memory");
        }
    }
}

/// Whether the rows are told so.
fn has_rows(rt: &impl Abort, alloc: Global, watches: &Watches, wanted: &str) -> bool {
    let mut told = String::new(alloc);
    for row in watches.rows() {
        tell(rt, &mut told, row);
        told.push_str("; ").expect(rt, "memory");
    }
    told.as_str().trim() == wanted
}

/// How many of a hundred properties a session comes to watch.
fn fill(rt: &impl Abort, alloc: Global, watches: &mut Watches, session: &str) -> u32 {
    let mut count: u32 = 0;
    for number in 0..100u8 {
        let prop = format!(in alloc; "p({number})").expect(rt, "memory");
        if watch(rt, watches, session, prop.as_str()) == "ok" {
            count = count.saturating_add(1);
        }
    }
    count
}

/// The three words of a call.
fn words<'a>(rt: &impl Abort, call: &'a str) -> (&'a str, &'a str, &'a str) {
    let (verb, rest) = call.split_once(' ').expect(rt, call);
    let (session, prop) = rest.split_once(' ').expect(rt, call);
    (verb, session, prop)
}

/// Whether a call has this answer.
fn answers(
    rt: &impl Abort,
    alloc: Global,
    watches: &mut Watches,
    call: &str,
    wanted: &str,
) -> bool {
    let (verb, session, prop) = words(rt, call);
    match verb {
        "watch" => watch(rt, watches, session, prop) == wanted,
        "unwatch" => unwatch(rt, watches, session, prop) == (wanted == "yes"),
        "is" => is_watched(rt, watches, session, prop) == (wanted == "yes"),
        "find" => has_place(rt, watches, prop, wanted),
        "fill" => Some(fill(rt, alloc, watches, session)) == wanted.parse::<u32>().ok(),
        "rows" => has_rows(rt, alloc, watches, wanted),
        _ => false,
    }
}

/// Sees that each call of a table has its answer, from no watch on.
fn check_calls(rt: &impl Abort, alloc: Global, table: &str) {
    let watches = Watches::new(alloc).expect(rt, "memory");
    let mut watches = Box::new(alloc, watches).expect(rt, "memory");
    for row in table.lines() {
        if let Some((call, wanted)) = row_of(row) {
            assert!(rt; answers(rt, alloc, &mut watches, call, wanted), "{row}");
        }
    }
}

#[test]
fn properties_are_watched_in_term_order(rt: HostRuntime) {
    check_calls(&rt, rt.alloc(), CALLS);
}

#[test]
fn a_session_watches_at_most_64(rt: HostRuntime) {
    check_calls(&rt, rt.alloc(), FULL);
}
