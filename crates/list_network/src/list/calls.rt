//! The calls on a list network.
ghost use Rattle.network.specs.Calls.{Emptied};
ghost use Rattle.list_network.specs.Model.{modelled};
ghost use Rattle.list_network.specs.Held;

use crate::list::ListNetwork;
use crate::relax::Relaxation;
use network::{Limit, LimitList, MAX_LIMITS, Network, check_limit};
use problem::{MAX_EVENTS, Refusal};

impl ListNetwork {
    /// The network of the day with one event and horizon 0, with no limits.
    pub fn new() -> ListNetwork
        ensures { Emptied 1 0 (modelled result) }
    {
        ListNetwork {
            limits: LimitList::new(),
            times: [[0; MAX_EVENTS]; MAX_LIMITS + 1],
        }
    }
}

impl Network for ListNetwork {
    ghost net = { modelled };

    ghost sound = { λ network. Held.sound network };

    fn reset(&mut self, events: usize, horizon: u32) -> Result<(), Refusal> {
        self.limits.reset(events, horizon)?;
        self.times[0] = [0; MAX_EVENTS];
        Ok(())
    }

    fn push(&mut self, limit: Limit) -> Result<(), Refusal> {
        check_limit(self.limits.day(), self.limits.len(), limit)?;
        let before = self.times[self.limits.len()];
        let mut relaxation = Relaxation::new(&self.limits, limit, before);
        relaxation.settle()?;
        self.times[self.limits.len() + 1] = relaxation.times;
        self.limits.push(limit)?;
        Ok(())
    }

    fn pop(&mut self) -> Result<(), Refusal> {
        self.limits.pop()
    }

    fn earliest(&self, event: usize) -> Result<u32, Refusal> {
        if event >= self.limits.day().events() {
            return Err(Refusal::NoSuchEvent);
        }
        Ok(u32::from(self.times[self.limits.len()][event]))
    }
}
