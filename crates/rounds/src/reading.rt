//! A round as a line of text states it: a minute for each event, in event order, with commas between.
ghost use Rattle.std.specs.Prelude.{◌≡◌, Some, MatchResult};
ghost use Rattle.rounds.specs.Round.{States, Refuses, OneRound, NoRound, fault_text};
ghost use Rattle.rounds.specs.declared.reading.RoundFault.TheVariants.{NoMemory};

use fields::{Fields, IllFormed, natural};
use std::alloc::{AllocFailed, Global};
use std::error::Error;
use std::fmt;

/// Why a line states no round.
#[derive(Clone, Copy, PartialEq, Eq, Debug)]
pub enum RoundFault {
    /// The text for the minute of this event, counted from 0, is no number.
    NotANumber { event: usize },
    /// Memory ran out.
    NoMemory,
}

/// Which minute is no number, or that memory ran out.
impl fmt::Display for RoundFault {
    ghost output = { λ fault. Some (fault_text fault) };

    fn fmt<W: fmt::Write>(&self, f: &mut fmt::Formatter<W>) -> fmt::Result {
        match self {
            Self::NotANumber { event } => write!(f, "the minute of event {event} is no number"),
            Self::NoMemory => write!(f, "out of memory"),
        }
    }
}

impl Error for RoundFault {}

/// A minute that found no memory.
impl From<AllocFailed<u32>> for RoundFault {
    ghost from_gives = { λ _ r. r ≡ NoMemory };

    fn from(_refused: AllocFailed<u32>) -> RoundFault {
        RoundFault::NoMemory
    }
}

/// The minutes that a line states, one for each event; there is at least one.
/// Refuses a line at its first field that is not one to nine digits without a leading zero,
/// and any line when memory runs out.
pub fn read_round(heap: Global, line: &[u8]) -> Result<Vec<u32>, RoundFault>
    ensures { MatchResult result
        (λ minutes. States line.now minutes.items)
        (λ fault. Refuses line.now fault) }
{
    let mut minutes = Vec::new(heap);
    for (event, field) in Fields::of(line).enumerate() {
        match natural(field) {
            Ok(minute) => minutes.push(minute)?,
            Err(IllFormed) => return Err(RoundFault::NotANumber { event }),
        }
    }
    Ok(minutes)
}

/// A line states one round: no two lists of minutes have the same text.
pub fn a_line_states_one_round()
    ensures { OneRound }
{}

/// A line that is refused for one of its fields states no round at all.
pub fn a_refused_line_states_no_round()
    ensures { NoRound }
{}

#[cfg(test)]
mod tests {
    use super::*;
    use std::process::Abort;
    use std::test::Fail;

    #[test]
    fn a_line_states_a_minute_for_each_event(rt: HostRuntime) -> Result<(), Fail> {
        let minutes = read_round(rt.alloc(), b"0,15,0")?;
        assert_eq!(rt; minutes.as_slice(), [0, 15, 0].as_slice());
        Ok(())
    }

    #[test]
    fn a_field_that_is_no_number_is_refused_at_its_event(rt: HostRuntime) {
        refused_at(&rt, rt.alloc(), b"", 0);
        refused_at(&rt, rt.alloc(), b"1234567890", 0);
        refused_at(&rt, rt.alloc(), b"0,,5", 1);
        refused_at(&rt, rt.alloc(), b"0,015", 1);
        refused_at(&rt, rt.alloc(), b"0,x", 1);
        refused_at(&rt, rt.alloc(), b"0,5,", 2);
    }

    fn refused_at(rt: &impl Abort, heap: Global, line: &[u8], event: usize) {
        let refusal = RoundFault::NotANumber { event };
        assert_eq!(rt; read_round(heap, line), Err(refusal));
    }
}
