ghost use Rattle.std.specs.Prelude.{◌≡◌, ◌<◌, ◌≤◌, [], ◌∷◌, ◌++◌, length, slice_get, map, Some, IsTrue, IfOk, OnOk, OnErr, pos};
ghost use Rattle.std.specs.List.{list_all};
ghost use Rattle.ec_terms.specs.Term.{arg_of, ground_of, is_argument, names_are_names};

use crate::limits::MOST_ARGS;
use crate::name::Name;
use arrayvec::ArrayVec;
use ec_lists::NoMemory;
use smallvec::SmallVec;
use std::alloc::Global;
use std::marker::Model;

/// An argument of a ground term: a whole number or a name.
#[derive(Drop)]
pub enum Arg {
    Int(i64),
    Word(Name),
}

/// The arguments of a ground term, at most `MOST_ARGS`. Up to two are kept in place, as most terms
/// have no more; others stand in memory of their own.
#[derive(Drop)]
pub struct Args {
    items: SmallVec<Arg, 2>,
}

impl Model for Args {
    ghost use Rattle.std.specs.Prelude.{List, length, ◌≤◌};
    ghost use Rattle.ec_terms.specs.declared.ground.Arg.{Arg};
    ghost use Rattle.ec_terms.specs.declared.limits.TheConstants.{MOST_ARGS};

    ghost Value = { List Arg };

    ghost view = { λ a. a.items.items };

    ghost invariant = { λ a. length a.items.items ≤ MOST_ARGS };
}

/// A ground term: a name with 0 to `MOST_ARGS` arguments. Events and properties are ground terms.
#[derive(Drop)]
pub struct Ground {
    pub name: Name,
    pub args: Args,
}

/// An argument of a borrowed ground term. The bytes of a `Word` are a name.
#[derive(Clone, Copy, PartialEq, Eq, PartialOrd, Ord)]
pub enum ArgRef<'a> {
    Int(i64),
    Word(&'a [u8]),
}

/// The arguments of a borrowed ground term, at most `MOST_ARGS`.
#[derive(Drop)]
pub struct ArgRefs<'a> {
    items: ArrayVec<ArgRef<'a>, MOST_ARGS>,
}

impl<'a> Model for ArgRefs<'a> {
    ghost use Rattle.std.specs.Prelude.{List, length, ◌≤◌};
    ghost use Rattle.ec_terms.specs.declared.ground.ArgRef.{ArgRef};
    ghost use Rattle.ec_terms.specs.declared.limits.TheConstants.{MOST_ARGS};

    ghost Value = { List ArgRef };

    ghost view = { λ a. a.items.items };

    ghost invariant = { λ a. length a.items.items ≤ MOST_ARGS };
}

/// A ground term that borrows its names, as it stands in a line or in a `Ground`.
#[derive(Drop)]
pub struct GroundRef<'a> {
    pub name: &'a [u8],
    pub args: ArgRefs<'a>,
}

impl Arg {
    /// The same argument, borrowed.
    #[tactic(auto, unfolding(crate::specs::Term::is_argument))]
    pub fn borrow(&self) -> ArgRef<'_>
        ensures same { arg_of result ≡ self.now }
        ensures name { IsTrue (is_argument self.now) }
    {
        match self {
            Arg::Int(number) => ArgRef::Int(*number),
            Arg::Word(word) => ArgRef::Word(word.as_bytes()),
        }
    }
}

impl ArgRef<'_> {
    /// The same argument, with a name of its own. It takes no memory.
    #[tactic(auto, unfolding(crate::specs::Term::is_argument))]
    pub fn to_arg(&self) -> Arg
        requires { IsTrue (is_argument (arg_of self.now)) }
        ensures { result ≡ arg_of self.now }
    {
        match *self {
            ArgRef::Int(number) => Arg::Int(number),
            ArgRef::Word(word) => Arg::Word(Name::spelt(word)),
        }
    }
}

impl Args {
    /// No arguments. It takes no memory.
    pub fn new(alloc: Global) -> Args
        ensures { result ≡ [] }
    {
        Args {
            items: SmallVec::new(alloc),
        }
    }

    /// How many arguments there are.
    pub fn len(&self) -> usize
        ensures count { result ≡ length self.now }
        ensures few { result ≤ MOST_ARGS }
    {
        self.items.len()
    }

    /// The argument at a place, from 0.
    pub fn get(&self, i: usize) -> &Arg
        requires { i < length self.now }
        ensures { slice_get self.now i ≡ Some result.now }
    {
        &self.items[i]
    }

    /// All arguments, in order.
    pub fn as_slice(&self) -> &[Arg]
        ensures items { result.now ≡ self.now }
        ensures few { length self.now ≤ MOST_ARGS }
    {
        self.items.as_slice()
    }

    /// Adds an argument at the end. It is refused only if memory runs out, and then the arguments
    /// are as they were and the new one is dropped.
    pub fn push(&mut self, arg: Arg) -> Result<(), NoMemory>
        requires { length self.old < MOST_ARGS }
        ensures ok { OnOk result (self.new ≡ self.old ++ arg ∷ []) }
        ensures err { OnErr result (self.new ≡ self.old) }
    {
        self.items.push(arg)?;
        Ok(())
    }
}

impl Args {
    /// The same arguments, borrowed.
    pub fn borrow(&self) -> ArgRefs<'_>
        ensures same { map arg_of result ≡ self.now }
        ensures names { IsTrue (list_all is_argument self.now) }
    {
        let mut args = ArgRefs::new();
        for arg in self.as_slice() {
            args.push(arg.borrow());
        }
        args
    }
}

impl<'a> ArgRefs<'a> {
    /// The same arguments, with names of their own. It is refused only if memory runs out.
    pub fn to_args(&self, alloc: Global) -> Result<Args, NoMemory>
        requires { IsTrue (list_all is_argument (map arg_of self.now)) }
        ensures { IfOk result (λ args. args ≡ map arg_of self.now) }
    {
        let mut args = Args::new(alloc);
        for arg in self.as_slice() {
            args.push(arg.to_arg())?;
        }
        Ok(args)
    }

    /// The same arguments again, which borrow the same names.
    pub fn copied(&self) -> ArgRefs<'a>
        ensures { result ≡ self.now }
    {
        let mut args = ArgRefs::new();
        for arg in self.as_slice() {
            args.push(*arg);
        }
        args
    }
}

impl Ground {
    /// The same term, borrowed.
    #[tactic(auto, unfolding(crate::specs::Term::names_are_names))]
    pub fn borrow(&self) -> GroundRef<'_>
        ensures same { ground_of result ≡ self.now }
        ensures names { IsTrue (names_are_names self.now) }
    {
        GroundRef {
            name: self.name.as_bytes(),
            args: self.args.borrow(),
        }
    }
}

impl<'a> GroundRef<'a> {
    /// The same term, with names of its own. It is refused only if memory runs out.
    #[tactic(auto, unfolding(crate::specs::Term::names_are_names))]
    pub fn to_ground(&self, alloc: Global) -> Result<Ground, NoMemory>
        requires { IsTrue (names_are_names (ground_of self.now)) }
        ensures { IfOk result (λ term. term ≡ ground_of self.now) }
    {
        let args = self.args.to_args(alloc)?;
        Ok(Ground {
            name: Name::spelt(self.name),
            args,
        })
    }

    /// The same term again, which borrows the same names.
    pub fn copied(&self) -> GroundRef<'a>
        ensures { ground_of result ≡ ground_of self.now }
    {
        GroundRef {
            name: self.name,
            args: self.args.copied(),
        }
    }
}

/// The number 0, which fills the unused places of a list of arguments.
impl Default for Arg {
    ghost use Rattle.ec_terms.specs.declared.ground.Arg.TheVariants.{Int};

    ghost is_default = { λ arg. arg ≡ Int (pos 0) };

    fn default() -> Self {
        Arg::Int(0)
    }
}

/// The number 0, which fills the unused places of a list of arguments.
impl Default for ArgRef<'_> {
    ghost use Rattle.ec_terms.specs.declared.ground.Arg.TheVariants.{Int};

    ghost is_default = { λ arg. arg_of arg ≡ Int (pos 0) };

    fn default() -> Self {
        ArgRef::Int(0)
    }
}

impl<'a> ArgRefs<'a> {
    /// No arguments.
    pub fn new() -> ArgRefs<'a>
        ensures { result ≡ [] }
    {
        ArgRefs {
            items: ArrayVec::new(),
        }
    }

    /// How many arguments there are.
    pub fn len(&self) -> usize
        ensures count { result ≡ length self.now }
        ensures few { result ≤ MOST_ARGS }
    {
        self.items.len()
    }

    /// The argument at a place, from 0.
    pub fn get(&self, i: usize) -> &ArgRef<'a>
        requires { i < length self.now }
        ensures { slice_get self.now i ≡ Some result.now }
    {
        &self.items[i]
    }

    /// All arguments, in order.
    pub fn as_slice(&self) -> &[ArgRef<'a>]
        ensures items { result.now ≡ self.now }
        ensures few { length self.now ≤ MOST_ARGS }
    {
        self.items.as_slice()
    }

    /// Adds an argument at the end.
    pub fn push(&mut self, arg: ArgRef<'a>)
        requires { length self.old < MOST_ARGS }
        ensures { self.new ≡ self.old ++ arg.entry ∷ [] }
    {
        self.items.push(arg);
    }
}
