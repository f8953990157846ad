//! Ascending lists of properties: the place of a number, and a number more or less.
ghost use Rattle.std.specs.Prelude.{◌≡◌, ◌+◌, ◌-◌, ◌≤◌, ◌<◌, IsTrue, IfOk, IfErr, true, false, get_or, is_ok, length, nat_lt, vec_len, if◌then◌else◌};
ghost use Rattle.ec_terms.specs.declared.ids.PropId.{PropId};
ghost use Rattle.std.specs.List.{insert, remove};
ghost use Rattle.std.specs.List.Sorted.{IsPartitionPoint};
ghost use Rattle.std.specs.Vec.{vec_capacity};
ghost use Rattle.ec_numbered.specs.PropSet.{are_ascending, comes_before, has_number, with_number, without_number};

use ec_terms::PropId;

/// Whether the last of a list comes before a number. Of no numbers, each does.
fn is_behind_last(list: &[PropId], p: PropId) -> bool
    ensures { IsTrue result → (q : PropId) → 1 ≤ length list.now → IsTrue (comes_before (get_or list.now (length list.now - 1) q) p) }
{
    let len = list.len();
    len == 0 || list[len - 1].0 < p.0
}

/// How many of an ascending list come before a number. New numbers are mostly the greatest, so the last is looked at first.
fn count_before(list: &[PropId], p: PropId) -> usize
    requires { IsTrue (are_ascending list.now) }
    ensures within { result ≤ length list.now }
    ensures cut { IsPartitionPoint (λ q. comes_before q p ≡ true) (λ q. comes_before q p ≡ false) list.now result }
{
    if is_behind_last(list, p) {
        return list.len();
    }
    list.partition_point(
        |q| -> bool
            ensures { result ≡ nat_lt q.now.0 p.0 }
        { q.0 < p.0 },
    )
}

/// The place of a number, or, as an error, the place that it would take.
pub(crate) fn place_of(list: &[PropId], p: PropId) -> Result<usize, usize>
    requires { IsTrue (are_ascending list.now) }
    ensures there { is_ok result ≡ has_number p.0 list.now }
    ensures found { IfOk result (λ i. i < length list.now) }
    ensures removed { IfOk result (λ i. remove list.now i ≡ without_number p list.now) }
    ensures within { IfErr result (λ i. i ≤ length list.now) }
    ensures inserted { IfErr result (λ i. insert list.now i p ≡ with_number p list.now) }
{
    let place = count_before(list, p);
    if place == list.len() {
        return Err(place);
    }
    if list[place].0 == p.0 {
        Ok(place)
    } else {
        Err(place)
    }
}

/// Puts a number in its place, unless it is there. Where it is not, there is room for it.
pub(crate) fn put(list: &mut Vec<PropId>, p: PropId)
    requires ascends { IsTrue (are_ascending list.old.items) }
    requires room { (if has_number p.0 list.old.items then 0 else 1) ≤ vec_capacity list.old - vec_len list.old }
    ensures items { list.new.items ≡ with_number p list.old.items }
    ensures ascends { IsTrue (are_ascending list.new.items) }
    ensures len { vec_len list.new ≡ vec_len list.old + (if has_number p.0 list.old.items then 0 else 1) }
    ensures capacity { vec_capacity list.new ≡ vec_capacity list.old }
{
    if let Err(place) = place_of(list, p) {
        match list.insert(place, p) {
            Ok(()) => {}
            Err(_) => unreachable!(),
        }
    }
}

/// Takes a number out, if it is there.
pub(crate) fn take_out(list: &mut Vec<PropId>, p: PropId)
    requires { IsTrue (are_ascending list.old.items) }
    ensures items { list.new.items ≡ without_number p list.old.items }
    ensures ascends { IsTrue (are_ascending list.new.items) }
    ensures len { vec_len list.new ≤ vec_len list.old }
    ensures capacity { vec_capacity list.new ≡ vec_capacity list.old }
{
    if let Ok(place) = place_of(list, p) {
        let _ = list.remove(place);
    }
}
