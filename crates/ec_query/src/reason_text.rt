//! The text of a reason while it is put together.
ghost use Rattle.std.specs.Prelude.{◌≡◌, ◌+◌, ◌≤◌, ◌++◌, [], codes, length};
ghost use Rattle.ec_commands.specs.QueryTexts.{begin_text};
ghost use Rattle.ec_intervals.specs.Table.{plain_begin};
ghost use Rattle.ec_query.specs.Reasons.{plain_origin};
ghost use Rattle.ec_query.specs.ReasonTexts.{told_cause, told_origin, told_reason};

use crate::begin_text::push_begin;
use crate::reason::{Cause, Origin, Reason};
use ec_intervals::Begin;
use ec_moment::{LONGEST_MOMENT, Moment};
use ec_outside::Text;
use ec_terms::LONGEST_NAME;
use itoa::Buffer;

/// The most bytes that the number of a rule has.
const LONGEST_RULE: usize = 5;

/// The most bytes that a cause has: an identity, the word for a rule, and its number.
const LONGEST_CAUSE: usize = LONGEST_NAME + 6 + LONGEST_RULE;

/// The most bytes that a reason has: two times, two causes, and the words between them.
const LONGEST_REASON: usize = 2 * LONGEST_MOMENT + 2 * LONGEST_CAUSE + 24;

/// The text of a reason.
pub(crate) type ReasonText = Text<LONGEST_REASON>;

/// The begin that an origin is of.
fn begin_of<T: Moment>(origin: &Origin<T>) -> Begin<T>
    ensures { plain_begin T.rank result ≡ plain_origin T.rank origin.now }
{
    match origin {
        Origin::Initial => Begin::Initial,
        Origin::At(at, _) => Begin::At(*at),
    }
}

/// Adds a cause: its event and the number of its rule.
fn push_cause(text: &mut ReasonText, cause: &Cause)
    requires { length text.old + LONGEST_CAUSE ≤ LONGEST_REASON }
    ensures text { text.new ≡ text.old ++ told_cause cause.now }
    ensures len { length text.new ≤ length text.old + LONGEST_CAUSE }
{
    let mut buffer = Buffer::new();
    text.push(cause.id.as_bytes());
    text.push(b" rule ");
    text.push(buffer.format(cause.rule).as_bytes());
}

/// Adds what a begin came by.
fn push_origin<T: Moment>(text: &mut ReasonText, origin: &Origin<T>)
    requires { length text.old + LONGEST_CAUSE + 3 ≤ LONGEST_REASON }
    ensures text { text.new ≡ text.old ++ told_origin origin.now }
    ensures len { length text.new ≤ length text.old + LONGEST_CAUSE + 3 }
{
    match origin {
        Origin::Initial => text.push(b"initially"),
        Origin::At(_, cause) => {
            text.push(b"by ");
            push_cause(text, cause);
        }
    }
}

/// Adds why a property holds that goes on.
fn push_lasting<T: Moment>(text: &mut ReasonText, from: &Origin<T>)
    requires { text.old ≡ [] }
    ensures { text.new ≡ codes "yes " ++ begin_text T.canon (plain_origin T.rank from.now) ++ codes " inf " ++ told_origin from.now }
{
    text.push(b"yes ");
    push_begin(text, begin_of(from));
    text.push(b" inf ");
    push_origin(text, from);
}

/// Adds why a property holds that is terminated at the time or later.
fn push_ending<T: Moment>(text: &mut ReasonText, from: &Origin<T>, until: T, by: &Cause)
    requires { text.old ≡ [] }
    ensures { text.new ≡ codes "yes " ++ begin_text T.canon (plain_origin T.rank from.now) ++ codes " " ++ T.canon (T.rank until) ++ codes " " ++ told_origin from.now ++ codes " until " ++ told_cause by.now }
{
    text.push(b"yes ");
    push_begin(text, begin_of(from));
    text.push(b" ");
    text.push_moment(until);
    text.push(b" ");
    push_origin(text, from);
    text.push(b" until ");
    push_cause(text, by);
}

/// Adds why a property does not hold that had begun. The word says how it came to its end.
fn push_ended<T: Moment>(text: &mut ReasonText, word: &[u8], from: Begin<T>, until: T, by: &Cause)
    requires empty { text.old ≡ [] }
    requires short { length word.now ≤ 10 }
    ensures { text.new ≡ word.now ++ begin_text T.canon (plain_begin T.rank from) ++ codes " " ++ T.canon (T.rank until) ++ codes " by " ++ told_cause by.now }
{
    text.push(word);
    push_begin(text, from);
    text.push(b" ");
    text.push_moment(until);
    text.push(b" by ");
    push_cause(text, by);
}

/// The text of a reason.
pub(crate) fn text_of<T: Moment>(reason: &Reason<T>) -> ReasonText
    ensures { result ≡ told_reason T.rank T.canon reason.now }
{
    let mut text = ReasonText::new();
    match reason {
        Reason::Yes { from, until: None } => push_lasting(&mut text, from),
        Reason::Yes {
            from,
            until: Some((at, by)),
        } => push_ending(&mut text, from, *at, by),
        Reason::Never => text.push(b"no never"),
        Reason::Ended { from, until, by } => push_ended(&mut text, b"no ended ", *from, *until, by),
        Reason::Broken { from, until, by } => {
            push_ended(&mut text, b"no broken ", *from, *until, by)
        }
    }
    text
}
