//! Calls as records of five bytes: which call, two events, and a number of two bytes, the low one first.
ghost use Rattle.std.specs.Prelude.{◌≡◌};
ghost use Rattle.network_bench.specs.Scripts.{call_of};

use network::{Call, Limit};

/// The bytes of a record.
pub(crate) const RECORD_SIZE: usize = 5;

/// A record of a call.
pub(crate) struct Record(pub(crate) [u8; RECORD_SIZE]);

impl From<Record> for Call {
    ghost from_gives = { λ bytes call. call ≡ call_of bytes.0 };

    /// The call that a record states: 0 for a reset, 1 for a push, 2 for a pop, and a question for any other number.
    fn from(record: Record) -> Call {
        let Record([code, x, y, low, high]) = record;
        match code {
            0 => Call::Reset {
                events: usize::from(x),
                horizon: u32::from(u16::from_le_bytes([low, high])),
            },
            1 => Call::Push(Limit {
                x: usize::from(x),
                y: usize::from(y),
                bound: i32::from(i16::from_le_bytes([low, high])),
            }),
            2 => Call::Pop,
            _ => Call::Earliest {
                event: usize::from(x),
            },
        }
    }
}
