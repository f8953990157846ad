//! One list of dependents in order: one put in its place, one taken out, and the dependents of a time.
ghost use Rattle.std.specs.Prelude.{◌≡◌, ◌+◌, ◌^◌, ◌<◌, ◌≤◌, ℕ, true, false, [], ◌∷◌, IfSome, int_lt, int_le, length, take, slice_get, slice_index_or, option_map, if◌then◌else◌};
ghost use Rattle.std.specs.List.Sorted.{IsPartitionPoint};
ghost use Rattle.ec_entries.specs.declared.event_entries.Dependent.{Dependent};
ghost use Rattle.ec_entries.specs.Dependents.{AreInOrder, dependent_before, dependent_cmp, dependents_after, dependents_at, from_place, is_from};

use crate::event_entries::Dependent;
use ec_blocks::Blocks;
use ec_moment::Moment;
use ec_terms::Slot;
use std::cmp::Ordering;

/// In place of a place to look at first: none.
const ANYWHERE: usize = usize::MAX;

/// How many dependents are looked at before a search in the whole list.
const FEW: usize = 8;

/// How two dependents stand to each other.
fn compare<T: Moment>(a: &Dependent<T>, b: &Dependent<T>) -> Ordering
    ensures { result ≡ dependent_cmp T.rank a.now b.now }
{
    a.at.order(&b.at)
        .then(a.slot.0.cmp(&b.slot.0))
        .then(a.place.cmp(&b.place))
}

/// The place of a dependent: how many stand before it.
fn place_of<T: Moment>(list: &Blocks<Dependent<T>>, dependent: &Dependent<T>) -> usize
    requires { AreInOrder T.rank list.now.items }
    ensures within { result ≤ length list.now.items }
    ensures cut { IsPartitionPoint (λ other. dependent_before T.rank other dependent.now ≡ true) (λ other. dependent_before T.rank other dependent.now ≡ false) list.now.items result }
{
    list.partition_point(
        |other| -> bool
            ensures { result ≡ dependent_before T.rank other.now dependent.entry.now }
        { compare(other, dependent).is_lt() },
    )
}

/// Puts a dependent in its place, where none is from its slot and place, and there is room for it. It takes no memory.
pub(crate) fn put<T: Moment>(list: &mut Blocks<Dependent<T>>, dependent: Dependent<T>)
    requires order { AreInOrder T.rank list.old.items }
    requires absent { from_place dependent.slot.0 dependent.place list.old.items ≡ [] }
    requires room { 1 ≤ list.old.spare }
    ensures order { AreInOrder T.rank list.new.items }
    ensures exact { (slot place : ℕ) → from_place slot place list.new.items ≡ (if is_from slot place dependent then dependent ∷ [] else from_place slot place list.old.items) }
    ensures spare { list.old.spare ≤ list.new.spare + 1 }
{
    let place = place_of(list, &dependent);
    list.insert(place, dependent);
}

/// Takes out a dependent that is there.
pub(crate) fn take_out<T: Moment>(list: &mut Blocks<Dependent<T>>, dependent: &Dependent<T>)
    requires order { AreInOrder T.rank list.old.items }
    requires present { from_place dependent.now.slot.0 dependent.now.place list.old.items ≡ dependent.now ∷ [] }
    ensures order { AreInOrder T.rank list.new.items }
    ensures exact { (slot place : ℕ) → from_place slot place list.new.items ≡ (if is_from slot place dependent.now then [] else from_place slot place list.old.items) }
    ensures spare { list.old.spare ≤ list.new.spare }
{
    let place = place_of(list, dependent);
    let _ = list.remove(place);
}

/// How many dependents are before a time. `near` is a place to look at first.
fn count_before<T: Moment>(list: &Blocks<Dependent<T>>, at: T, near: usize) -> usize
    requires { AreInOrder T.rank list.now.items }
    ensures within { result ≤ length list.now.items }
    ensures cut { IsPartitionPoint (λ dependent. int_lt (T.rank dependent.at) (T.rank at) ≡ true) (λ dependent. int_lt (T.rank dependent.at) (T.rank at) ≡ false) list.now.items result }
{
    list.partition_near(
        near,
        |dependent| -> bool
            ensures { result ≡ int_lt (T.rank dependent.now.at) (T.rank at) }
        { dependent.at.order(&at).is_lt() },
    )
}

/// How many dependents are up to a time and at it. `near` is a place to look at first.
fn count_up_to<T: Moment>(list: &Blocks<Dependent<T>>, at: T, near: usize) -> usize
    requires { AreInOrder T.rank list.now.items }
    ensures within { result ≤ length list.now.items }
    ensures cut { IsPartitionPoint (λ dependent. int_le (T.rank dependent.at) (T.rank at) ≡ true) (λ dependent. int_le (T.rank dependent.at) (T.rank at) ≡ false) list.now.items result }
{
    list.partition_near(
        near,
        |dependent| -> bool
            ensures { result ≡ int_le (T.rank dependent.now.at) (T.rank at) }
        { dependent.at.order(&at).is_le() },
    )
}

/// Whether a dependent is before a time.
fn is_before<T: Moment>(dependent: &Dependent<T>, at: T) -> bool
    ensures { result ≡ int_lt (T.rank dependent.now.at) (T.rank at) }
{
    dependent.at.order(&at).is_lt()
}

/// Whether a dependent is before a time or at it.
fn is_up_to<T: Moment>(dependent: &Dependent<T>, at: T) -> bool
    ensures { result ≡ int_le (T.rank dependent.now.at) (T.rank at) }
{
    dependent.at.order(&at).is_le()
}

/// How many of the first dependents of a run are before a time. `None`: all of those that are looked at.
fn first_from<T: Moment>(run: &[Dependent<T>], at: T) -> Option<usize>
    ensures within { IfSome result (λ i. i < length run.now) }
    ensures front { IfSome result (λ i. (k : ℕ) (d : Dependent T) → k < i → int_lt (T.rank (slice_index_or run.now k d).at) (T.rank at) ≡ true) }
    ensures next { IfSome result (λ i. (d : Dependent T) → int_lt (T.rank (slice_index_or run.now i d).at) (T.rank at) ≡ false) }
{
    for k in 0..run.len().min(FEW) {
        if !is_before(&run[k], at) {
            return Some(k);
        }
    }
    None
}

/// The place of the first dependent of a run from a place on that is behind a time. `None`: none of those that are looked at.
fn first_behind<T: Moment>(run: &[Dependent<T>], from: usize, at: T) -> Option<usize>
    ensures behind { IfSome result (λ i. from ≤ i) }
    ensures within { IfSome result (λ i. i < length run.now) }
    ensures front { IfSome result (λ i. (k : ℕ) (d : Dependent T) → from ≤ k → k < i → int_le (T.rank (slice_index_or run.now k d).at) (T.rank at) ≡ true) }
    ensures next { IfSome result (λ i. (d : Dependent T) → int_le (T.rank (slice_index_or run.now i d).at) (T.rank at) ≡ false) }
{
    for k in from..run.len().min(FEW) {
        if !is_up_to(&run[k], at) {
            return Some(k);
        }
    }
    None
}

/// A run of the dependents after a time, where its first one is among the few from the one in front of a place on. `None`: it is
/// to be searched elsewhere.
fn near_after<T: Moment>(list: &Blocks<Dependent<T>>, at: T, near: usize) -> Option<&[Dependent<T>]>
    requires { AreInOrder T.rank list.now.items }
    ensures some { IfSome result (λ run. 1 ≤ length run.now) }
    ensures run { IfSome result (λ run. run.now ≡ take (length run.now) (dependents_after T.rank (T.rank at) list.now.items)) }
{
    if near == 0 || near >= list.len() {
        return None;
    }
    let run = list.run(near - 1);
    let end = first_behind(run, 0, at)?;
    if end == 0 { None } else { Some(&run[end..]) }
}

/// A run of the dependents after a time, empty exactly when there is none. `near` is a place to look at first.
pub(crate) fn run_after<T: Moment>(
    list: &Blocks<Dependent<T>>,
    at: T,
    near: usize,
) -> &[Dependent<T>]
    requires { AreInOrder T.rank list.now.items }
    ensures run { result.now ≡ take (length result.now) (dependents_after T.rank (T.rank at) list.now.items) }
    ensures none { result.now ≡ [] → dependents_after T.rank (T.rank at) list.now.items ≡ [] }
{
    match near_after(list, at, near) {
        Some(run) => run,
        None => searched_after(list, at, near),
    }
}

/// A run of the dependents after a time, searched in the whole list.
fn searched_after<T: Moment>(list: &Blocks<Dependent<T>>, at: T, near: usize) -> &[Dependent<T>]
    requires { AreInOrder T.rank list.now.items }
    ensures run { result.now ≡ take (length result.now) (dependents_after T.rank (T.rank at) list.now.items) }
    ensures none { result.now ≡ [] → dependents_after T.rank (T.rank at) list.now.items ≡ [] }
{
    let place = count_up_to(list, at, near);
    if place < list.len() {
        list.run(place)
    } else {
        &[]
    }
}

/// The dependents at a time, where they, and the one behind them, are among the few from the one in front of a place on. The
/// place becomes the one behind them. `None`: they are to be searched elsewhere.
fn near_at<'a, T: Moment>(
    list: &'a Blocks<Dependent<T>>,
    at: T,
    near: &mut usize,
) -> Option<&'a [Dependent<T>]>
    requires { AreInOrder T.rank list.now.items }
    ensures { IfSome result (λ run. run.now ≡ dependents_at T.rank (T.rank at) list.now.items) }
{
    let place = *near;
    if place == 0 || place >= list.len() {
        return None;
    }
    let from = place - 1;
    let run = list.run(from);
    let before = first_from(run, at)?;
    let end = first_behind(run, before, at)?;
    if before == 0 {
        return None;
    }
    *near = from.saturating_add(end);
    Some(&run[before..end])
}

/// The dependents at a time, if they lie together in memory. `near` is a place to look at first, and becomes the place behind
/// them.
pub(crate) fn run_at<'a, T: Moment>(
    list: &'a Blocks<Dependent<T>>,
    at: T,
    near: &mut usize,
) -> Option<&'a [Dependent<T>]>
    requires { AreInOrder T.rank list.now.items }
    ensures { IfSome result (λ run. run.now ≡ dependents_at T.rank (T.rank at) list.now.items) }
{
    match near_at(list, at, near) {
        Some(run) => Some(run),
        None => searched_at(list, at, near),
    }
}

/// The dependents at a time, searched in the whole list, if they lie together in memory.
fn searched_at<'a, T: Moment>(
    list: &'a Blocks<Dependent<T>>,
    at: T,
    near: &mut usize,
) -> Option<&'a [Dependent<T>]>
    requires { AreInOrder T.rank list.now.items }
    ensures { IfSome result (λ run. run.now ≡ dependents_at T.rank (T.rank at) list.now.items) }
{
    let before = count_before(list, at, *near);
    let up_to = count_up_to(list, at, before);
    *near = up_to;
    let count = up_to - before;
    if count == 0 {
        return Some(&[]);
    }
    let run = list.run(before);
    if count <= run.len() {
        Some(&run[..count])
    } else {
        None
    }
}

/// The k-th of the dependents at a time, from 0. `None` exactly when there are at most k.
pub(crate) fn nth_at<T: Moment>(list: &Blocks<Dependent<T>>, at: T, k: usize) -> Option<(Slot, u8)>
    requires { AreInOrder T.rank list.now.items }
    ensures nth { result ≡ option_map (λ dependent. (dependent.slot, dependent.place)) (slice_get (dependents_at T.rank (T.rank at) list.now.items) k) }
    ensures few { length (dependents_at T.rank (T.rank at) list.now.items) < 2 ^ 64 }
{
    let _ = list.len(); // a word counts them
    let before = count_before(list, at, ANYWHERE);
    let up_to = count_up_to(list, at, before);
    if k < up_to - before {
        let dependent = list.get(before + k);
        Some((dependent.slot, dependent.place))
    } else {
        None
    }
}
