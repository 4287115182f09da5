//! Calls on a planner as values, and their answers.
ghost use Rattle.std.specs.Prelude.{◌≡◌};
ghost use Rattle.histories.specs.declared.calls.Rejection.TheVariants.{Refused, Returned};

use planner::Outcome;
use problem::{Constraint, Refusal, Unadopted};

/// A call. The first four belong to a draft, the others to a search.
#[derive(Drop)]
pub enum Call {
    Set { events: usize, horizon: u32 },
    Adopt(Constraint),
    Drop(usize),
    Close,
    Press(u32),
    Outcome,
    Read(usize),
    Reopen,
}

/// What a granted call tells.
#[derive(Drop)]
pub enum Reply<W> {
    /// That it is done.
    Done,
    /// That so many steps were made.
    Stepped(u32),
    /// What `outcome` tells.
    Told(Outcome<W>),
    /// The minute that was read.
    Minute(u32),
}

/// Why a call is not granted.
#[derive(Drop)]
pub enum Rejection {
    /// It was refused.
    Refused(Refusal),
    /// Its rule was refused, and is handed back.
    Returned(Unadopted),
    /// It does not belong to the present state, and is handed back.
    Misplaced(Call),
}

/// What a call answers.
pub type Answer<W> = Result<Reply<W>, Rejection>;

impl From<Refusal> for Rejection {
    ghost from_gives = { λ refusal rejection. rejection ≡ Refused refusal };

    fn from(refusal: Refusal) -> Rejection {
        Rejection::Refused(refusal)
    }
}

impl From<Unadopted> for Rejection {
    ghost from_gives = { λ unadopted rejection. rejection ≡ Returned unadopted };

    fn from(unadopted: Unadopted) -> Rejection {
        Rejection::Returned(unadopted)
    }
}
