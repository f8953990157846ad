//! The list of clashes, in which the next one behind a time is found at once.
ghost use Rattle.std.specs.Prelude.{◌≡◌, ◌+◌, ◌≤◌, ◌<◌, ◌&&◌, ◌||◌, ◌==◌, ℕ, ℤ, [], true, false, not, IsTrue, IfOk, IfErr, IfSome, IfNone, OnOk, is_ok, length, drop, filter, int_le, int_lt, if◌then◌else◌};
ghost use Rattle.std.specs.List.{insert, remove};
ghost use Rattle.std.specs.List.Sorted.{IsPartitionPoint};
ghost use Rattle.std.specs.Ordering.{int_eq, is_lt, is_eq};
ghost use Rattle.ec_points.specs.Clashes.{are_clashes, clash_cmp, has_clash, is_behind};

use ec_blocks::Blocks;
use ec_lists::{Copied, NoMemory};
use ec_moment::Moment;
use ec_terms::PropId;
use std::alloc::Global;
use std::cmp::Ordering;
use std::marker::Model;

/// A property that has, at a time, a mark that both initiates and clashes.
#[derive(Clone, Copy)]
pub(crate) struct Clash<T> {
    pub at: T,
    pub p: PropId,
}

impl<T: Moment> Copied for Clash<T> {
    fn copied(&self) -> Self {
        *self
    }
}

/// All clashes, by time and then by number, each once.
#[derive(Drop)]
pub(crate) struct Clashes<T: Moment> {
    list: Blocks<Clash<T>>,
}

impl<T: Moment> Model for Clashes<T> {
    ghost use Rattle.std.specs.Prelude.{IsTrue};
    ghost use Rattle.ec_lists.specs.Reserved.{Reserved};
    ghost use Rattle.ec_points.specs.declared.clashes.Clash.{Clash};
    ghost use Rattle.ec_points.specs.Clashes.{are_clashes};

    ghost Value = { Reserved (Clash T) };

    ghost view = { λ clashes. clashes.list };

    ghost invariant = { λ clashes. IsTrue (are_clashes T.rank clashes.list.items) };
}

/// How two clashes stand to each other.
fn compare<T: Moment>(a: &Clash<T>, b: &Clash<T>) -> Ordering
    ensures { result ≡ clash_cmp T.rank a.now b.now }
{
    a.at.order(&b.at).then(a.p.0.cmp(&b.p.0))
}

/// How many clashes come before one.
fn count_before<T: Moment>(list: &Blocks<Clash<T>>, clash: &Clash<T>) -> usize
    requires { IsTrue (are_clashes T.rank list.now.items) }
    ensures within { result ≤ length list.now.items }
    ensures cut { IsPartitionPoint (λ other. is_lt (clash_cmp T.rank other clash.now) ≡ true) (λ other. is_lt (clash_cmp T.rank other clash.now) ≡ false) list.now.items result }
{
    list.partition_point(
        |other| -> bool
            ensures { result ≡ is_lt (clash_cmp T.rank other.now clash.entry.now) }
        { compare(other, clash).is_lt() },
    )
}

/// How many clashes are up to a time and at it.
fn count_up_to<T: Moment>(list: &Blocks<Clash<T>>, at: T) -> usize
    requires { IsTrue (are_clashes T.rank list.now.items) }
    ensures { drop result list.now.items ≡ filter (λ clash. int_lt (T.rank at) (T.rank clash.at)) list.now.items }
{
    list.partition_point(
        |clash| -> bool
            ensures { result ≡ int_le (T.rank clash.now.at) (T.rank at) }
        { clash.at.order(&at).is_le() },
    )
}

/// Whether a time comes before another.
fn is_earlier<T: Moment>(a: T, b: T) -> bool
    ensures { result ≡ int_lt (T.rank a) (T.rank b) }
{
    a.order(&b).is_lt()
}

/// How many clashes come before a time.
fn count_earlier<T: Moment>(list: &Blocks<Clash<T>>, at: T) -> usize
    requires { IsTrue (are_clashes T.rank list.now.items) }
    ensures { IsPartitionPoint (λ clash. int_lt (T.rank clash.at) (T.rank at) ≡ true) (λ clash. int_lt (T.rank clash.at) (T.rank at) ≡ false) list.now.items result }
{
    list.partition_point(
        |clash| -> bool
            ensures { result ≡ int_lt (T.rank clash.now.at) (T.rank at) }
        { is_earlier(clash.at, at) },
    )
}

/// The place of a clash, or, as an error, the place that it would take.
fn place_of<T: Moment>(list: &Blocks<Clash<T>>, clash: &Clash<T>) -> Result<usize, usize>
    requires { IsTrue (are_clashes T.rank list.now.items) }
    ensures there { is_ok result ≡ has_clash T.rank clash.now.p.0 (T.rank clash.now.at) list.now.items }
    ensures found { IfOk result (λ i. i < length list.now.items) }
    ensures removed { IfOk result (λ i. remove list.now.items i ≡ filter (λ other. not (is_eq (clash_cmp T.rank other clash.now))) list.now.items) }
    ensures within { IfErr result (λ i. i ≤ length list.now.items) }
    ensures inserted { IfErr result (λ i. IsTrue (are_clashes T.rank (insert list.now.items i clash.now))) }
{
    let place = count_before(list, clash);
    if place == list.len() {
        return Err(place);
    }
    if compare(list.get(place), clash).is_eq() {
        Ok(place)
    } else {
        Err(place)
    }
}

impl<T: Moment> Clashes<T> {
    /// No clashes. It takes no memory.
    pub fn new(alloc: Global) -> Clashes<T>
        ensures { result.items ≡ [] }
    {
        Clashes {
            list: Blocks::new(alloc),
        }
    }

    /// Makes room for `n` further clashes. A refusal leaves all as it was.
    pub fn reserve(&mut self, n: usize) -> Result<(), NoMemory>
        ensures same { self.new.items ≡ self.old.items }
        ensures ok { OnOk result (n ≤ self.new.spare) }
        ensures kept { self.old.spare ≤ self.new.spare }
    {
        self.list.reserve(n)
    }

    /// Adds a clash, unless it is there. It takes no memory, and room only where it is not there yet.
    pub fn put(&mut self, at: T, p: PropId)
        requires { (if has_clash T.rank p.0 (T.rank at) self.old.items then 0 else 1) ≤ self.old.spare }
        ensures has { (n : ℕ) (t : ℤ) → has_clash T.rank n t self.new.items ≡ (((p.0 == n) && int_eq (T.rank at) t) || has_clash T.rank n t self.old.items) }
        ensures spare { self.old.spare ≤ self.new.spare + (if has_clash T.rank p.0 (T.rank at) self.old.items then 0 else 1) }
    {
        let clash = Clash { at, p };
        if let Err(place) = place_of(&self.list, &clash) {
            self.list.insert(place, clash);
        }
    }

    /// Takes a clash out, if it is there. It takes no memory.
    pub fn take_out(&mut self, at: T, p: PropId)
        ensures has { (n : ℕ) (t : ℤ) → has_clash T.rank n t self.new.items ≡ (not ((p.0 == n) && int_eq (T.rank at) t) && has_clash T.rank n t self.old.items) }
        ensures spare { self.old.spare ≤ self.new.spare }
    {
        let clash = Clash { at, p };
        if let Ok(place) = place_of(&self.list, &clash) {
            let _ = self.list.remove(place);
        }
    }

    /// Whether there is no clash at a time.
    pub fn is_calm(&self, at: T) -> bool
        ensures { IsTrue result → (n : ℕ) → has_clash T.rank n (T.rank at) self.now.items ≡ false }
    {
        let place = count_earlier(&self.list, at);
        if place >= self.list.len() {
            return true;
        }
        is_earlier(at, self.list.get(place).at)
    }

    /// The place of the first clash behind a time, or of the first of all.
    fn place_behind(&self, after: Option<T>) -> usize
        ensures { drop result self.now.items ≡ filter (λ clash. is_behind T.rank after (T.rank clash.at)) self.now.items }
    {
        match after {
            Some(at) => count_up_to(&self.list, at),
            None => 0,
        }
    }

    /// The first clash behind a time, or the first of all. `None` exactly when there is none.
    pub fn next(&self, after: Option<T>) -> Option<Clash<T>>
        ensures some { IfSome result (λ clash. IsTrue (has_clash T.rank clash.p.0 (T.rank clash.at) self.now.items)) }
        ensures behind { IfSome result (λ clash. IsTrue (is_behind T.rank after (T.rank clash.at))) }
        ensures least { IfSome result (λ clash. (n : ℕ) (t : ℤ) → IsTrue (is_behind T.rank after t) → IsTrue (int_lt t (T.rank clash.at)) → has_clash T.rank n t self.now.items ≡ false) }
        ensures none { IfNone result ((n : ℕ) (t : ℤ) → IsTrue (is_behind T.rank after t) → has_clash T.rank n t self.now.items ≡ false) }
    {
        let place = self.place_behind(after);
        if place < self.list.len() {
            Some(*self.list.get(place))
        } else {
            None
        }
    }
}
