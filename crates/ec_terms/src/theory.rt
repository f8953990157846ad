use crate::name::Name;
use crate::pattern::{PatArg, Pattern};
use crate::sequence::Sequence;

/// One condition of a rule on a property: that it is current, or, where not `positive`, that it is not.
#[derive(Drop)]
pub struct Literal {
    pub positive: bool,
    pub prop: Pattern,
}

/// The four comparisons of a test.
#[derive(Clone, Copy, Debug, PartialEq, Eq)]
pub enum TestOp {
    Same,
    Differ,
    Less,
    AtMost,
}

/// One condition of a rule that compares two arguments by their order.
#[derive(Drop)]
pub struct Test {
    pub op: TestOp,
    pub left: PatArg,
    pub right: PatArg,
}

/// What the event of a rule does to the property at its head.
#[derive(Clone, Copy, Debug, PartialEq, Eq)]
pub enum Kind {
    Initiates,
    Terminates,
}

/// The tests of a rule, in their order.
pub type Tests = Sequence<Test>;

/// The literals of a rule, in their order.
pub type Literals = Sequence<Literal>;

/// An event that fits `event` and passes the `tests` starts or ends the property `head`,
/// in the context of the `literals` (Kowalski and Sergot's initiates and terminates).
#[derive(Drop)]
pub struct Rule {
    /// The number of the clause in the theory, from 1 over clauses of every kind.
    pub clause: u32,
    pub kind: Kind,
    pub event: Pattern,
    pub head: Pattern,
    pub tests: Tests,
    pub literals: Literals,
}

/// Two patterns whose properties exclude each other (Kowalski and Sergot's exclusive properties).
#[derive(Drop)]
pub struct Exclusive {
    pub clause: u32,
    pub left: Pattern,
    pub right: Pattern,
}

/// The properties with this name and number of arguments are initiated anew each time.
#[derive(Drop)]
pub struct Strong {
    pub clause: u32,
    pub name: Name,
    pub arity: i64,
}

/// A property that is current from before all events, up to its first break. It holds there only if
/// that break terminates it, or none comes.
#[derive(Drop)]
pub struct Initial {
    pub clause: u32,
    pub prop: Pattern,
}

/// The kinds of time: whole numbers, and days with times of day.
#[derive(Clone, Copy, Debug, PartialEq, Eq)]
pub enum TimeKind {
    Tick,
    Civil,
}

/// The times of events, and of what is asked, are of this kind.
#[derive(Drop)]
pub struct TimeDecl {
    pub clause: u32,
    pub kind: TimeKind,
}

/// A domain theory: its clauses by kind, each kind in the order of the text.
#[derive(Drop)]
pub struct Theory {
    pub rules: Sequence<Rule>,
    pub exclusives: Sequence<Exclusive>,
    pub strongs: Sequence<Strong>,
    pub initials: Sequence<Initial>,
    pub times: Sequence<TimeDecl>,
}
