//! Why a text has no tokens.
use crate::place::Place;
use std::alloc::AllocFailed;
use std::error::Error;
use std::fmt;

/// Why a text has no list of tokens. Each fault but `Memory` is the first from the left.
#[derive(Clone, Copy, Debug, PartialEq, Eq)]
pub enum TokenFault {
    /// A byte that begins no token; also a `-` without a digit after it and a `!` without `=` after it.
    BadByte(Place),
    /// A name or variable of more than 64 bytes, at its first byte.
    LongName(Place),
    /// A number of more than 20 digits or with a value that does not fit, at its `-` or first digit.
    BigNumber(Place),
    /// The memory for the list was not there.
    Memory,
}

impl fmt::Display for TokenFault {
    fn fmt<W: fmt::Write>(&self, f: &mut fmt::Formatter<W>) -> fmt::Result {
        match self {
            TokenFault::BadByte(_) => write!(f, "a byte that begins no token"),
            TokenFault::LongName(_) => write!(f, "a name of more than 64 bytes"),
            TokenFault::BigNumber(_) => write!(f, "a number that does not fit"),
            TokenFault::Memory => write!(f, "out of memory"),
        }
    }
}

impl Error for TokenFault {}

impl<T: Drop> From<AllocFailed<T>> for TokenFault {
    ghost use Rattle.std.specs.Prelude.{◌≡◌};
    ghost use Rattle.ec_theory.specs.declared.token_fault.TokenFault.TheVariants.{Memory};

    ghost from_gives = { λ _ fault. fault ≡ Memory };

    fn from(_e: AllocFailed<T>) -> TokenFault {
        TokenFault::Memory
    }
}
