//! What no clause shows: that memory is given, for few rows and for many, and by number.
use ec_numbered::{NumberMap, SmallMap};
use std::process::Abort;

/// Gives a key a value.
fn give(rt: &impl Abort, map: &mut SmallMap<usize, u32>, key: u32, value: u32) {
    map.insert(key as usize, value).expect(rt, "memory");
}

/// Gives each key below `count` its double, and each of them first another value.
fn give_doubles(rt: &impl Abort, map: &mut SmallMap<usize, u32>, count: u32) {
    for n in 0..count {
        give(rt, map, n, 1);
        give(rt, map, n, n.wrapping_mul(2));
    }
}

/// Whether each key below `count` has its double as its value, and the next key none.
fn has_doubles(map: &SmallMap<usize, u32>, count: u32) -> bool {
    for n in 0..count {
        if map.get(n as usize) != Some(n.wrapping_mul(2)) {
            return false;
        }
    }
    map.len() == count as usize && map.get(count as usize).is_none()
}

/// Whether an empty map, of few rows or of many, keeps what it is given, and is emptied.
fn keeps(rt: &impl Abort, map: &mut SmallMap<usize, u32>, count: u32) -> bool {
    give_doubles(rt, map, count);
    let kept = has_doubles(map, count);
    map.clear();
    kept && map.len() == 0 && map.get(0).is_none()
}

/// Gives a number a value.
fn give_number(rt: &impl Abort, map: &mut NumberMap<u32>, number: u32, value: u32) {
    map.insert(number as usize, value).expect(rt, "memory");
}

/// Gives each number below `count` its double, and each of them first another value.
fn double_numbers(rt: &impl Abort, map: &mut NumberMap<u32>, count: u32) {
    for n in 0..count {
        give_number(rt, map, n, 1);
        give_number(rt, map, n, n.wrapping_mul(2));
    }
}

/// Whether each number below `count` has its double as its value, and the next number none.
fn are_doubled(map: &NumberMap<u32>, count: u32) -> bool {
    for n in 0..count {
        if map.get(n as usize) != Some(n.wrapping_mul(2)) {
            return false;
        }
    }
    map.len() == count as usize && map.get(count as usize).is_none()
}

/// Whether an empty map by number keeps what it is given, and nothing of it once it is emptied.
fn keeps_numbers(rt: &impl Abort, map: &mut NumberMap<u32>, count: u32) -> bool {
    double_numbers(rt, map, count);
    let kept = are_doubled(map, count);
    map.clear();
    give_number(rt, map, 2, 7);
    kept && map.len() == 1 && map.get(2) == Some(7) && map.get(1).is_none()
}

#[test]
fn few_rows_are_kept(rt: HostRuntime) {
    assert!(rt; keeps(&rt, &mut SmallMap::new(rt.alloc()), 3));
}

#[test]
fn many_rows_are_kept(rt: HostRuntime) {
    assert!(rt; keeps(&rt, &mut SmallMap::new(rt.alloc()), 100));
}

#[test]
fn numbers_are_kept(rt: HostRuntime) {
    assert!(rt; keeps_numbers(&rt, &mut NumberMap::new(rt.alloc()), 100));
}
