//! Why a text spells no expression.
ghost use Rattle.std.specs.Prelude.{◌≡◌};
ghost use Rattle.match_language.specs.Faults as spec;
ghost use Rattle.match_language.specs.declared.fault.ParseFault.TheVariants.{Memory, Bad};

use ovn_base::memory::NoMemory;
use std::alloc::AllocError;
use thiserror::Error;

/// The first fault of a text, with the place of the token at which it shows, in bytes from the text's begin. The end of the
/// text is a place too.
#[derive(Clone, Copy, PartialEq, Eq, Debug, Error)]
pub enum MatchFault {
    /// No token begins here.
    #[error("no token begins at byte {0}")]
    Token(usize),
    /// The text can't go on with this token, or can't end here.
    #[error("the text can't go on at byte {0}")]
    Syntax(usize),
    /// A term begins with a word that is no field and no predicate, or with `outport` in a from-lport rule.
    #[error("the word at byte {0} is no field")]
    UnknownField(usize),
    /// A constant in none of the forms, too wide, with bits outside its mask, of another kind than the field, or after a
    /// relation that doesn't take it.
    #[error("the constant at byte {0} doesn't stand there")]
    BadConstant(usize),
    /// The first operator that isn't the one of its list.
    #[error("the operator at byte {0} isn't the one before")]
    MixedAndOr(usize),
    /// The token that opens the 65th level of negations and parentheses.
    #[error("byte {0} opens the 65th level")]
    TooDeep(usize),
}

/// Why `parse` gives no expression.
#[derive(Clone, Copy, PartialEq, Eq, Debug, Error)]
pub enum ParseFault {
    /// The text spells none.
    #[error("{0}")]
    Bad(MatchFault),
    /// Memory was wanted and not found.
    #[error("out of memory")]
    Memory,
}

impl MatchFault {
    /// The fault's place, in bytes from the text's begin.
    pub fn place(self) -> usize
        ensures { result ≡ spec.place_of self }
    {
        match self {
            MatchFault::Token(place)
            | MatchFault::Syntax(place)
            | MatchFault::UnknownField(place)
            | MatchFault::BadConstant(place)
            | MatchFault::MixedAndOr(place)
            | MatchFault::TooDeep(place) => place,
        }
    }
}

impl From<NoMemory> for ParseFault {
    ghost from_gives = { λ _ f. f ≡ Memory };

    fn from(_error: NoMemory) -> Self {
        ParseFault::Memory
    }
}

impl From<AllocError> for ParseFault {
    ghost from_gives = { λ _ f. f ≡ Memory };

    fn from(_error: AllocError) -> Self {
        ParseFault::Memory
    }
}

impl From<MatchFault> for ParseFault {
    ghost from_gives = { λ e f. f ≡ Bad e };

    fn from(fault: MatchFault) -> Self {
        ParseFault::Bad(fault)
    }
}
