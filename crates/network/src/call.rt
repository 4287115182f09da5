//! A call on a network as a value, and the reply to it.
ghost use Rattle.network.specs.Made.{Made};

use crate::calls::Network;
use crate::limit::Limit;
use problem::Refusal;

/// A call on a network.
#[derive(Clone, Copy, PartialEq, Eq, Debug)]
pub enum Call {
    Reset { events: usize, horizon: u32 },
    Push(Limit),
    Pop,
    Earliest { event: usize },
}

/// What a network replies where it grants a call.
#[derive(Clone, Copy, PartialEq, Eq, Debug)]
pub enum Reply {
    /// The call is made, and tells nothing.
    Done,
    /// The earliest minute of the event.
    Minute(u32),
}

impl Call {
    /// Makes the call on the network, which refuses it as it does.
    pub fn make<N: Network>(self, network: &mut N) -> Result<Reply, Refusal>
        ensures { Made (N.net network.old) self result (N.net network.new) }
    {
        match self {
            Call::Reset { events, horizon } => network.reset(events, horizon)?,
            Call::Push(limit) => network.push(limit)?,
            Call::Pop => network.pop()?,
            Call::Earliest { event } => return Ok(Reply::Minute(network.earliest(event)?)),
        }
        Ok(Reply::Done)
    }
}
