//! What the sessions watch, in a table of properties.
ghost use Rattle.std.specs.List.Sorted.{IsPartitionPoint};
ghost use Rattle.std.specs.Vec.{vec_capacity};
ghost use Rattle.ec_terms.specs.declared.ground.Ground.{Ground};
ghost use Rattle.std.specs.Prelude.{◌≡◌, ◌≤◌, ◌<◌, ◌*◌, ℕ, IsTrue, IfOk, IfErr, IfNone, IfSome, OnOk, OnErr, length, replicate, [], false, true};
ghost use Rattle.ec_terms.specs.Term.{ground_of, names_are_names};
ghost use Rattle.ec_rows.specs.Ordered.{is_ascending};
ghost use Rattle.ec_watch.specs.Watched.{AreRows, HasNoRow, HasUnwatched, HasWatched, IsFree, IsRefusedWatch, IsThere, comes_first, has_property, is_below, watched_by, watched_by_each};

use crate::row::{ALL, Row};
use ec_commands::{MOST_WATCHED, SESSIONS};
use ec_lists::NoMemory;
use ec_terms::GroundRef;
use std::alloc::Global;
use std::marker::Model;

/// The most properties that all sessions watch together.
const MOST_ROWS: usize = ALL * MOST_WATCHED as usize;

/// How many rows come before a property.
fn count_before(rows: &[Row], p: &GroundRef<'_>) -> usize
    requires ascend { IsTrue (is_ascending comes_first rows.now) }
    ensures within { result ≤ length rows.now }
    ensures cut { IsPartitionPoint (λ row. is_below (ground_of p.now) row ≡ true) (λ row. is_below (ground_of p.now) row ≡ false) rows.now result }
{
    rows.partition_point(
        |row| -> bool
            ensures { result ≡ is_below (ground_of p.entry.now) row.now }
        { row.order(p).is_lt() },
    )
}

/// The place of the row of a property, or, as an error, the place that it would take.
fn place_of(rows: &[Row], p: &GroundRef<'_>) -> Result<usize, usize>
    requires ascend { IsTrue (is_ascending comes_first rows.now) }
    ensures there { IfOk result (λ i. IsThere (ground_of p.now) rows.now i) }
    ensures free { IfErr result (λ i. IsFree (ground_of p.now) rows.now i) }
{
    let place = count_before(rows, p);
    if place == rows.len() {
        return Err(place);
    }
    if rows[place].order(p).is_eq() {
        Ok(place)
    } else {
        Err(place)
    }
}

/// The place of the row of a property, if there is one.
pub(crate) fn find_row(rows: &[Row], p: &GroundRef<'_>) -> Option<usize>
    requires ascend { IsTrue (is_ascending comes_first rows.now) }
    ensures there { IfSome result (λ i. IsThere (ground_of p.now) rows.now i) }
    ensures none { IfNone result (HasNoRow (ground_of p.now) rows.now) }
{
    match place_of(rows, p) {
        Ok(place) => Some(place),
        Err(_) => None,
    }
}

/// How many properties a session watches.
fn count(rows: &[Row], session: u8) -> usize
    requires session { session < SESSIONS }
    ensures { result ≡ length (watched_by session rows.now) }
{
    let mut count = 0;
    for row in rows {
        if row.is_watched_by(session) {
            count += 1;
        }
    }
    count
}

/// From now on a session watches the property of a row.
fn join(rows: &mut Vec<Row>, place: usize, session: u8) -> Result<(), WatchRefusal>
    requires session { session < SESSIONS }
    requires within { place < length rows.old.items }
    requires rows { AreRows rows.old.items }
    ensures capacity { vec_capacity rows.old ≤ vec_capacity rows.new }
    ensures ok { OnOk result ((p : Ground) → IsThere p rows.old.items place → HasWatched p session rows.old.items rows.new.items) }
    ensures refused { IfErr result (λ refusal. (p : Ground) → IsThere p rows.old.items place → IsRefusedWatch refusal p (watched_by session rows.old.items)) }
    ensures err { OnErr result (rows.new.items ≡ rows.old.items) }
{
    if rows[place].is_watched_by(session) {
        return Err(WatchRefusal::Watched);
    }
    if count(rows, session) as u64 >= MOST_WATCHED {
        return Err(WatchRefusal::Full);
    }
    rows[place].set(session, true);
    Ok(())
}

/// From now on a session watches a property that no session watches yet. There is room for it.
fn enter(
    rows: &mut Vec<Row>,
    place: usize,
    session: u8,
    p: &GroundRef<'_>,
) -> Result<(), WatchRefusal>
    requires session { session < SESSIONS }
    requires named { IsTrue (names_are_names (ground_of p.now)) }
    requires free { IsFree (ground_of p.now) rows.old.items place }
    requires rows { AreRows rows.old.items }
    requires room { SESSIONS * MOST_WATCHED ≤ vec_capacity rows.old }
    ensures capacity { vec_capacity rows.old ≤ vec_capacity rows.new }
    ensures ok { OnOk result (HasWatched (ground_of p.now) session rows.old.items rows.new.items) }
    ensures refused { IfErr result (λ refusal. IsRefusedWatch refusal (ground_of p.now) (watched_by session rows.old.items)) }
    ensures err { OnErr result (rows.new.items ≡ rows.old.items) }
{
    if count(rows, session) as u64 >= MOST_WATCHED {
        return Err(WatchRefusal::Full);
    }
    match rows.insert(place, Row::new(p, session)) {
        Ok(()) => Ok(()),
        Err(_) => unreachable!(),
    }
}

/// From now on a session watches the property of a row no more, and the row goes where no other session does. Answers whether it did.
fn leave(rows: &mut Vec<Row>, place: usize, session: u8) -> bool
    requires session { session < SESSIONS }
    requires within { place < length rows.old.items }
    requires rows { AreRows rows.old.items }
    ensures capacity { vec_capacity rows.old ≤ vec_capacity rows.new }
    ensures left { result ≡ true → (p : Ground) → IsThere p rows.old.items place → HasUnwatched p session rows.old.items rows.new.items }
    ensures unwatched { result ≡ false → (p : Ground) → IsThere p rows.old.items place → has_property p (watched_by session rows.old.items) ≡ false }
    ensures same { result ≡ false → rows.new.items ≡ rows.old.items }
{
    if !rows[place].is_watched_by(session) {
        return false;
    }
    rows[place].set(session, false);
    if !rows[place].is_used() {
        rows.remove(place);
    }
    true
}

/// What each session watches: a row for each watched property, in term order.
#[derive(Drop)]
pub struct Watches {
    rows: Vec<Row>,
}

impl Model for Watches {
    ghost use Rattle.std.specs.Prelude.{List, ◌≤◌, ◌*◌};
    ghost use Rattle.std.specs.List.Sorted.{IsPartitionPoint};
    ghost use Rattle.std.specs.Vec.{vec_capacity};
    ghost use Rattle.ec_watch.specs.declared.row.Row.{Row};
    ghost use Rattle.ec_commands.specs.declared.limits.TheConstants.{MOST_WATCHED, SESSIONS};
    ghost use Rattle.ec_watch.specs.Watched.{AreRows};

    ghost Value = { List Row };

    ghost view = { λ watches. watches.rows.items };

    ghost invariant = { λ watches. AreRows watches.rows.items × (SESSIONS * MOST_WATCHED ≤ vec_capacity watches.rows) };
}

/// Why a watch is refused.
#[derive(Clone, Copy, Debug, PartialEq, Eq)]
pub enum WatchRefusal {
    /// The session watches the property already.
    Watched,
    /// The session watches as many properties as it may.
    Full,
}

impl Watches {
    /// No watch, with room for all that there may be. `Err`: memory ran out.
    pub fn new(alloc: Global) -> Result<Watches, NoMemory>
        ensures { IfOk result (λ watches. watched_by_each watches ≡ replicate SESSIONS []) }
    {
        let mut rows = Vec::new(alloc);
        rows.reserve(MOST_ROWS)?;
        Ok(Watches { rows })
    }

    /// From now on a session watches a property. It takes no memory. `Err`: all is as it was.
    pub fn watch(&mut self, session: u8, p: &GroundRef<'_>) -> Result<(), WatchRefusal>
        requires session { session < SESSIONS }
        requires named { IsTrue (names_are_names (ground_of p.now)) }
        ensures ok { OnOk result (HasWatched (ground_of p.now) session self.old self.new) }
        ensures refused { IfErr result (λ refusal. IsRefusedWatch refusal (ground_of p.now) (watched_by session self.old)) }
        ensures err { OnErr result (self.new ≡ self.old) }
    {
        match place_of(&self.rows, p) {
            Ok(place) => join(&mut self.rows, place, session),
            Err(place) => enter(&mut self.rows, place, session, p),
        }
    }

    /// From now on a session watches a property no more. Answers whether it did; where it did not, all is as it was.
    pub fn unwatch(&mut self, session: u8, p: &GroundRef<'_>) -> bool
        requires session { session < SESSIONS }
        ensures watched { result ≡ has_property (ground_of p.now) (watched_by session self.old) }
        ensures left { result ≡ true → HasUnwatched (ground_of p.now) session self.old self.new }
        ensures same { result ≡ false → self.new ≡ self.old }
    {
        match place_of(&self.rows, p) {
            Ok(place) => leave(&mut self.rows, place, session),
            Err(_) => false,
        }
    }

    /// Whether a session watches a property.
    pub fn is_watched(&self, session: u8, p: &GroundRef<'_>) -> bool
        requires session { session < SESSIONS }
        ensures { result ≡ has_property (ground_of p.now) (watched_by session self.now) }
    {
        match place_of(&self.rows, p) {
            Ok(place) => self.rows[place].is_watched_by(session),
            Err(_) => false,
        }
    }

    /// The watched properties, in term order.
    pub fn rows(&self) -> &[Row]
        ensures rows { result.now ≡ self.now }
        ensures order { AreRows self.now }
    {
        self.rows.as_slice()
    }

    /// The place of the row of a property, if some session watches it.
    pub fn find(&self, p: &GroundRef<'_>) -> Option<usize>
        ensures there { IfSome result (λ i. IsThere (ground_of p.now) self.now i) }
        ensures unwatched { IfNone result ((session : ℕ) → has_property (ground_of p.now) (watched_by session self.now) ≡ false) }
    {
        match place_of(&self.rows, p) {
            Ok(place) => Some(place),
            Err(_) => None,
        }
    }
}
