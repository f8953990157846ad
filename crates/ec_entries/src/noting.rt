//! The rows of dependents of all properties, and how the entries of one event are noted in them and taken out.
ghost use Rattle.std.specs.Prelude.{◌≡◌, ◌≢◌, ◌+◌, ◌<◌, ◌≤◌, ℕ, [], ◌∷◌, length, if◌then◌else◌};
ghost use Rattle.std.specs.Option.{option_to_list};
ghost use Rattle.ec_numbered.specs.ByNumber.{kept_at};
ghost use Rattle.ec_entries.specs.Dependents.{any_on, count_on, dependent_if, dependent_in, dependents_of, from_place, is_from, room_of};
ghost use Rattle.ec_entries.specs.Noting.{AreAllInOrder, IsNoted, IsTakenOut, AreNoted, AreTakenOut};

use crate::event_entries::Dependent;
use crate::ordered::{put, take_out};
use ec_blocks::Blocks;
use ec_context::{Entry, EntryLiteral, MOST_ENTRIES};
use ec_moment::Moment;
use ec_numbered::ByNumber;
use ec_terms::{PropId, Slot};

/// The dependents of each property, by its number.
pub(crate) type Rows<T> = ByNumber<Blocks<Dependent<T>>>;

/// Whether some literal is on a property.
pub(crate) fn is_any_on(literals: &[EntryLiteral], p: PropId) -> bool
    ensures { result ≡ any_on p.0 literals.now }
{
    literals.iter().any(|literal| literal.prop.0 == p.0)
}

/// Notes a dependent of a property, where none is from its place, and there is room.
fn note<T: Moment>(rows: &mut Rows<T>, p: PropId, dependent: Dependent<T>)
    requires order { AreAllInOrder T.rank rows.old }
    requires absent { from_place dependent.slot.0 dependent.place (dependents_of p.0 rows.old) ≡ [] }
    requires room { 1 ≤ room_of p.0 rows.old }
    ensures order { AreAllInOrder T.rank rows.new }
    ensures exact { (slot place : ℕ) → from_place slot place (dependents_of p.0 rows.new) ≡ (if is_from slot place dependent then dependent ∷ [] else from_place slot place (dependents_of p.0 rows.old)) }
    ensures others { (q : ℕ) → q ≢ p.0 → kept_at q rows.new ≡ kept_at q rows.old }
    ensures spare { room_of p.0 rows.old ≤ room_of p.0 rows.new + 1 }
{
    if let Some(row) = rows.get_mut(p) {
        put(row, dependent);
    }
}

/// Takes a dependent out of the row of a property.
fn drop_out<T: Moment>(rows: &mut Rows<T>, p: PropId, dependent: &Dependent<T>)
    requires order { AreAllInOrder T.rank rows.old }
    requires present { from_place dependent.now.slot.0 dependent.now.place (dependents_of p.0 rows.old) ≡ dependent.now ∷ [] }
    ensures order { AreAllInOrder T.rank rows.new }
    ensures exact { (slot place : ℕ) → from_place slot place (dependents_of p.0 rows.new) ≡ (if is_from slot place dependent.now then [] else from_place slot place (dependents_of p.0 rows.old)) }
    ensures others { (q : ℕ) → q ≢ p.0 → kept_at q rows.new ≡ kept_at q rows.old }
    ensures spare { room_of p.0 rows.old ≤ room_of p.0 rows.new }
{
    if let Some(row) = rows.get_mut(p) {
        take_out(row, dependent);
    }
}

/// Notes one entry in the row of each property that it has a literal on, once in each.
fn note_entry<T: Moment>(rows: &mut Rows<T>, dependent: &Dependent<T>, literals: &[EntryLiteral])
    requires order { AreAllInOrder T.rank rows.old }
    requires absent { (q : ℕ) → from_place dependent.now.slot.0 dependent.now.place (dependents_of q rows.old) ≡ [] }
    requires room { (q : ℕ) → (if any_on q literals.now then 1 else 0) ≤ room_of q rows.old }
    ensures { IsNoted T.rank dependent.now.at dependent.now.slot.0 dependent.now.place (λ q. any_on q literals.now) rows.old rows.new }
{
    for (k, literal) in literals.iter().enumerate() {
        if !is_any_on(&literals[..k], literal.prop) {
            note(rows, literal.prop, *dependent);
        }
    }
}

/// Takes one entry out of the row of each property that it has a literal on.
fn drop_entry<T: Moment>(rows: &mut Rows<T>, dependent: &Dependent<T>, literals: &[EntryLiteral])
    requires order { AreAllInOrder T.rank rows.old }
    requires present { (q : ℕ) → from_place dependent.now.slot.0 dependent.now.place (dependents_of q rows.old) ≡ option_to_list (dependent_if (any_on q literals.now) dependent.now.at dependent.now.slot.0 dependent.now.place) }
    ensures { IsTakenOut T.rank dependent.now.slot.0 dependent.now.place (λ q. any_on q literals.now) rows.old rows.new }
{
    for (k, literal) in literals.iter().enumerate() {
        if !is_any_on(&literals[..k], literal.prop) {
            drop_out(rows, literal.prop, dependent);
        }
    }
}

/// The dependent that the entry at a place of a list makes.
fn dependent_at<T: Moment>(at: T, slot: Slot, place: usize) -> Dependent<T>
    requires { place < MOST_ENTRIES }
    ensures { result ≡ record { at = at; slot = slot; place = place } }
{
    Dependent {
        at,
        slot,
        place: place as u8,
    }
}

/// Notes the entries of the event in a slot, of which none is noted yet. It takes no memory.
pub(crate) fn note_all<T: Moment>(rows: &mut Rows<T>, at: T, slot: Slot, list: &[Entry])
    requires order { AreAllInOrder T.rank rows.old }
    requires few { length list.now ≤ MOST_ENTRIES }
    requires absent { (q place : ℕ) → from_place slot.0 place (dependents_of q rows.old) ≡ [] }
    requires room { (q : ℕ) → count_on q list.now ≤ room_of q rows.old }
    ensures { AreNoted T.rank at slot.0 list.now rows.old rows.new }
{
    for (place, entry) in list.iter().enumerate() {
        note_entry(
            rows,
            &dependent_at(at, slot, place),
            entry.literals.as_slice(),
        );
    }
}

/// Takes out the entries of the event in a slot. It takes no memory.
pub(crate) fn drop_all<T: Moment>(rows: &mut Rows<T>, at: T, slot: Slot, list: &[Entry])
    requires order { AreAllInOrder T.rank rows.old }
    requires few { length list.now ≤ MOST_ENTRIES }
    requires present { (q place : ℕ) → from_place slot.0 place (dependents_of q rows.old) ≡ option_to_list (dependent_in q at slot.0 list.now place) }
    ensures { AreTakenOut T.rank slot.0 (length list.now) rows.old rows.new }
{
    for (place, entry) in list.iter().enumerate() {
        drop_entry(
            rows,
            &dependent_at(at, slot, place),
            entry.literals.as_slice(),
        );
    }
}
