//! The reply that lists the properties that hold at a time.
ghost use Rattle.std.specs.Prelude.{◌≡◌, ◌≤◌, ◌∷◌, [], List, OnOk, OnErr, All, IsSome, map};
ghost use Rattle.ec_terms.specs.declared.theory.Theory.{Theory};
ghost use Rattle.ec_axioms.specs.Calculus.{PlainEvent};
ghost use Rattle.ec_commands.specs.QueryTexts.{at_reply};
ghost use Rattle.ec_changes.specs.LiveLaws.{ListsInitials};
ghost use Rattle.ec_outside.specs.Counts.{Rose};
ghost use Rattle.ec_outside.specs.Streams.{Appended, AppendedPart};
ghost use Rattle.ec_store.specs.Table.{number_of, prop_at};
ghost use Rattle.ec_query.specs.Held.{AreHeldOf};
ghost use Rattle.ec_query.specs.Holding.{held_numbers, number_text};
ghost use Rattle.ec_query.specs.Listed.{Lists};
ghost use Rattle.ec_query.specs.Members.{members_text};

use crate::counted::write_count;
use crate::held::Held;
use crate::held_list::{HeldList, list_held};
use crate::member_text::{MemberText, set_term};
use ec_moment::Moment;
use ec_outside::{Failed, Sink, write_all};
use ec_rows::SpanRow;
use ec_store::PropTable;
use ec_terms::PropId;

/// Writes a kept property as a member.
fn write_member<K: Sink>(
    props: &PropTable,
    p: PropId,
    text: &mut MemberText,
    out: &mut K,
) -> Result<(), Failed>
    requires { IsSome (prop_at p.0 props.now) }
    ensures written { OnOk result (Appended K.stands out.old out.new (members_text (number_text props.now) (p ∷ []))) }
    ensures part { OnErr result (AppendedPart K.stands out.old out.new (members_text (number_text props.now) (p ∷ []))) }
    ensures failed { OnErr result (Rose (K.faults out.old) (K.faults out.new)) }
    ensures quiet { OnOk result (K.faults out.new ≡ K.faults out.old) }
    ensures counted { K.faults out.old ≤ K.faults out.new }
{
    set_term(text, &props.ground(p));
    write_all(out, text.as_bytes())
}

/// Writes kept properties, each as a member.
fn write_members<K: Sink>(props: &PropTable, numbers: &[PropId], out: &mut K) -> Result<(), Failed>
    requires { All (λ p. IsSome (prop_at p.0 props.now)) numbers.now }
    ensures written { OnOk result (Appended K.stands out.old out.new (members_text (number_text props.now) numbers.now)) }
    ensures part { OnErr result (AppendedPart K.stands out.old out.new (members_text (number_text props.now) numbers.now)) }
    ensures failed { OnErr result (Rose (K.faults out.old) (K.faults out.new)) }
    ensures quiet { OnOk result (K.faults out.new ≡ K.faults out.old) }
    ensures counted { K.faults out.old ≤ K.faults out.new }
{
    let mut text = MemberText::new();
    for p in numbers {
        write_member(props, *p, &mut text, out)?;
    }
    Ok(())
}

/// Writes a kept property as a member, if it holds at a time.
fn write_one<T: Moment, I: SpanRow<T>, K: Sink>(
    held: &Held<'_, T, I>,
    p: PropId,
    at: T,
    text: &mut MemberText,
    out: &mut K,
) -> Result<(), Failed>
    requires { IsSome (prop_at p.0 held.now.props.now) }
    ensures written { OnOk result (Appended K.stands out.old out.new (members_text (number_text held.now.props.now) (held_numbers T.rank held.now.intervals.now (T.rank at) (p ∷ [])))) }
    ensures part { OnErr result (AppendedPart K.stands out.old out.new (members_text (number_text held.now.props.now) (held_numbers T.rank held.now.intervals.now (T.rank at) (p ∷ [])))) }
    ensures failed { OnErr result (Rose (K.faults out.old) (K.faults out.new)) }
    ensures quiet { OnOk result (K.faults out.new ≡ K.faults out.old) }
    ensures counted { K.faults out.old ≤ K.faults out.new }
{
    if !held.intervals.covers(p, at) {
        return Ok(());
    }
    write_member(held.props, p, text, out)
}

/// Writes those of some kept properties that hold at a time, each as a member.
fn write_run<T: Moment, I: SpanRow<T>, K: Sink>(
    held: &Held<'_, T, I>,
    run: &[PropId],
    at: T,
    out: &mut K,
) -> Result<(), Failed>
    requires { All (λ p. IsSome (prop_at p.0 held.now.props.now)) run.now }
    ensures written { OnOk result (Appended K.stands out.old out.new (members_text (number_text held.now.props.now) (held_numbers T.rank held.now.intervals.now (T.rank at) run.now))) }
    ensures part { OnErr result (AppendedPart K.stands out.old out.new (members_text (number_text held.now.props.now) (held_numbers T.rank held.now.intervals.now (T.rank at) run.now))) }
    ensures failed { OnErr result (Rose (K.faults out.old) (K.faults out.new)) }
    ensures quiet { OnOk result (K.faults out.new ≡ K.faults out.old) }
    ensures counted { K.faults out.old ≤ K.faults out.new }
{
    let mut text = MemberText::new();
    for p in run {
        write_one(held, *p, at, &mut text, out)?;
    }
    Ok(())
}

/// Writes the kept properties that hold at a time, in their order, each as a member.
fn write_held<T: Moment, I: SpanRow<T>, K: Sink>(
    held: &Held<'_, T, I>,
    at: T,
    out: &mut K,
) -> Result<(), Failed>
    ensures written { OnOk result (Appended K.stands out.old out.new (members_text (number_text held.now.props.now) (held_numbers T.rank held.now.intervals.now (T.rank at) (map number_of held.now.props.now)))) }
    ensures part { OnErr result (AppendedPart K.stands out.old out.new (members_text (number_text held.now.props.now) (held_numbers T.rank held.now.intervals.now (T.rank at) (map number_of held.now.props.now)))) }
    ensures failed { OnErr result (Rose (K.faults out.old) (K.faults out.new)) }
    ensures quiet { OnOk result (K.faults out.new ≡ K.faults out.old) }
    ensures counted { K.faults out.old ≤ K.faults out.new }
{
    let mut i = 0;
    while i < held.props.len() {
        let run = held.props.run_in_order(i);
        write_run(held, run, at, out)?;
        i += run.len();
    }
    Ok(())
}

/// Writes the kept properties that hold at a time, in their order, each as a member: from their list, or by going over
/// all kept properties again where the list had no room for all that hold.
fn write_listed<T: Moment, I: SpanRow<T>, K: Sink>(
    held: &Held<'_, T, I>,
    list: &HeldList,
    at: T,
    out: &mut K,
) -> Result<(), Failed>
    requires { Lists list.now (held_numbers T.rank held.now.intervals.now (T.rank at) (map number_of held.now.props.now)) }
    ensures written { OnOk result (Appended K.stands out.old out.new (members_text (number_text held.now.props.now) (held_numbers T.rank held.now.intervals.now (T.rank at) (map number_of held.now.props.now)))) }
    ensures part { OnErr result (AppendedPart K.stands out.old out.new (members_text (number_text held.now.props.now) (held_numbers T.rank held.now.intervals.now (T.rank at) (map number_of held.now.props.now)))) }
    ensures failed { OnErr result (Rose (K.faults out.old) (K.faults out.new)) }
    ensures quiet { OnOk result (K.faults out.new ≡ K.faults out.old) }
    ensures counted { K.faults out.old ≤ K.faults out.new }
{
    let _ = held.props.len();
    match list.all() {
        Some(numbers) => write_members(held.props, numbers, out),
        None => write_held(held, at, out),
    }
}

/// Writes the properties that hold at a time: how many they are, and each of them in term order. The theory lists its
/// initial properties, as each that is checked does. `Failed` comes only where a call of the sink failed, and then some
/// first part of the reply was written.
pub fn at<T: Moment, I: SpanRow<T>, K: Sink>(
    held: &Held<'_, T, I>,
    at: T,
    out: &mut K,
) -> Result<(), Failed>
    ensures written { (theory : Theory) (events : List PlainEvent) → AreHeldOf T.rank theory events held.now.props.now held.now.intervals.now → ListsInitials theory → OnOk result (Appended K.stands out.old out.new (at_reply theory events (T.rank at))) }
    ensures part { (theory : Theory) (events : List PlainEvent) → AreHeldOf T.rank theory events held.now.props.now held.now.intervals.now → ListsInitials theory → OnErr result (AppendedPart K.stands out.old out.new (at_reply theory events (T.rank at))) }
    ensures failed { OnErr result (Rose (K.faults out.old) (K.faults out.new)) }
    ensures quiet { OnOk result (K.faults out.new ≡ K.faults out.old) }
    ensures counted { K.faults out.old ≤ K.faults out.new }
{
    let _ = held.props.len();
    let list = list_held(held, at);
    write_count(list.count() as u64, out)?;
    write_listed(held, &list, at, out)
}
