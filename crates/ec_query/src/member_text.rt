//! The text of a member of a reply while it is put together.
ghost use Rattle.std.specs.Prelude.{◌≡◌, IsTrue, ◌+◌, ◌≤◌, ◌∷◌, ◌++◌, [], length};
ghost use Rattle.ec_commands.specs.QueryTexts.{broken_text, end_text, closing_text, interval_text, event_text};
ghost use Rattle.ec_axioms.specs.Events.{event_of};
ghost use Rattle.ec_intervals.specs.Table.{plain_broken, plain_end, plain_interval};
ghost use Rattle.ec_terms.specs.Term.{ground_of, names_are_names, term_text};

use crate::begin_text::push_begin;
use ec_axioms::Event;
use ec_intervals::{Begin, Interval};
use ec_moment::{LONGEST_MOMENT, Moment};
use ec_outside::Text;
use ec_rows::End;
use ec_terms::{GroundRef, LONGEST_NAME, LONGEST_TERM, text};

/// The most bytes that a member has, with the space before it: those of an event.
const LONGEST_MEMBER: usize = LONGEST_NAME + LONGEST_MOMENT + LONGEST_TERM + 3;

/// The text of a member of a reply, which has room for the longest one.
pub type MemberText = Text<LONGEST_MEMBER>;

/// Begins the next member: the text is a space.
fn restart(member: &mut MemberText)
    ensures { member.new ≡ 32 ∷ [] }
{
    member.clear();
    member.push(b" ");
}

/// Adds an end and what closes the interval behind it.
fn push_end<T: Moment>(member: &mut MemberText, end: End<T>)
    requires { length member.old + LONGEST_MOMENT + 1 ≤ LONGEST_MEMBER }
    ensures { member.new ≡ (member.old ++ end_text T.canon (plain_end T.rank end)) ++ closing_text (plain_end T.rank end) }
{
    match end {
        End::At(at) => {
            member.push_moment(at);
            member.push(b"]");
        }
        End::Unended => {
            member.push(b"inf");
            member.push(b")");
        }
    }
}

/// Makes the text that of an interval, behind a space, whatever it was.
pub fn set_interval<T: Moment>(member: &mut MemberText, interval: Interval<T>)
    ensures { member.new ≡ 32 ∷ interval_text T.canon (plain_interval T.rank interval) }
{
    restart(member);
    member.push(b"(");
    push_begin(member, interval.from);
    member.push(b",");
    push_end(member, interval.end);
}

/// The text of a broken begin with its break, behind a space.
pub(crate) fn set_broken<T: Moment>(member: &mut MemberText, begin: Begin<T>, at: T)
    ensures { member.new ≡ 32 ∷ broken_text T.canon (plain_broken T.rank (begin, at)) }
{
    restart(member);
    push_begin(member, begin);
    member.push(b" ");
    member.push_moment(at);
}

/// The text of a time, behind a space.
pub(crate) fn set_time<T: Moment>(member: &mut MemberText, at: T)
    ensures { member.new ≡ 32 ∷ T.canon (T.rank at) }
{
    restart(member);
    member.push_moment(at);
}

/// The text of a term, behind a space.
pub(crate) fn set_term(member: &mut MemberText, term: &GroundRef<'_>)
    requires { IsTrue (names_are_names (ground_of term.now)) }
    ensures { member.new ≡ 32 ∷ term_text (ground_of term.now) }
{
    restart(member);
    member.push(text(term).as_bytes());
}

/// The text of an event, behind a space: its identity, its time and its term.
pub(crate) fn set_event<T: Moment>(member: &mut MemberText, event: &Event<T>)
    ensures { member.new ≡ 32 ∷ event_text T.canon (event_of T.rank event.now) }
{
    restart(member);
    member.push(event.id.as_bytes());
    member.push(b" ");
    member.push_moment(event.at);
    member.push(b" ");
    member.push(text(&event.term.borrow()).as_bytes());
}
