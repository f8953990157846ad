//! Edits of a `Vec` that take no memory.
ghost use Rattle.std.specs.Prelude.{◌≡◌, ◌+◌, ◌-◌, ◌<◌, ◌≤◌, ◌++◌, length, vec_len};
ghost use Rattle.std.specs.List.{insert, splice};
ghost use Rattle.std.specs.Vec.{vec_capacity};

/// Inserts an item at a place, where the `Vec` has room for it.
pub(crate) fn insert_within<X: Drop>(items: &mut Vec<X>, place: usize, item: X)
    requires within { place ≤ vec_len items.old }
    requires room { vec_len items.old < vec_capacity items.old }
    ensures items { items.new.items ≡ insert items.old.items place item }
    ensures len { vec_len items.new ≡ vec_len items.old + 1 }
    ensures capacity { vec_capacity items.new ≡ vec_capacity items.old }
{
    match items.insert(place, item) {
        Ok(()) => {}
        Err(_) => unreachable!(),
    }
}

/// Adds items at the end, where the `Vec` has room for them.
fn extend_within<X: Copy>(items: &mut Vec<X>, more: &[X])
    requires { vec_len items.old + length more.now ≤ vec_capacity items.old }
    ensures items { items.new.items ≡ items.old.items ++ more.now }
    ensures len { vec_len items.new ≡ vec_len items.old + length more.now }
    ensures capacity { vec_capacity items.old ≤ vec_capacity items.new }
{
    match items.extend_from_slice(more) {
        Ok(()) => {}
        Err(_) => unreachable!(),
    }
}

/// Writes items over those from a place on.
fn write_over<X: Copy>(items: &mut Vec<X>, from: usize, with: &[X])
    requires { from + length with.now ≤ vec_len items.old }
    ensures items { items.new.items ≡ splice items.old.items from (from + length with.now) with.now }
    ensures len { vec_len items.new ≡ vec_len items.old }
    ensures capacity { vec_capacity items.new ≡ vec_capacity items.old }
{
    items[from..from + with.len()].copy_from_slice(with);
}

/// Puts the items `with` in place of those from one place up to another, where the `Vec` has room for
/// what it grows by. The tail moves once, if its place changes, and each new item is written once into its place.
pub(crate) fn splice_within<X: Copy>(items: &mut Vec<X>, from: usize, to: usize, with: &[X])
    requires ordered { from ≤ to }
    requires within { to ≤ vec_len items.old }
    requires room { length with.now - (to - from) ≤ vec_capacity items.old - vec_len items.old }
    ensures items { items.new.items ≡ splice items.old.items from to with.now }
    ensures len { vec_len items.new + (to - from) ≡ vec_len items.old + length with.now }
    ensures capacity { vec_capacity items.old ≤ vec_capacity items.new }
{
    if with.len() == to - from {
        write_over(items, from, with);
        return;
    }
    let tail = items.len() - to;
    let end = from + with.len();
    let growth = end.saturating_sub(to);
    extend_within(items, &with[..growth]);
    items.copy_within(to..to + tail, end);
    items.truncate(end + tail);
    write_over(items, from, with);
}
