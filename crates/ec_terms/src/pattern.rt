use crate::ground::Arg;
use crate::name::Name;
use crate::sequence::Sequence;

/// An argument of a pattern: a variable by its number, anything at all (`_`), or a fixed argument.
/// The variables of a clause are numbered from 0 by their first appearance in it.
#[derive(Drop)]
pub enum PatArg {
    Var(u32),
    Any,
    Fixed(Arg),
}

/// The arguments of a pattern.
pub type PatArgs = Sequence<PatArg>;

/// A term that may have variables: what a rule says of events and properties.
#[derive(Drop)]
pub struct Pattern {
    pub name: Name,
    pub args: PatArgs,
}
