//! The calls on a network of shortest distances.
ghost use Rattle.std.specs.Prelude.{◌≡◌, ◌+◌, ◌-◌, ◌<◌, pos, ◌+ℤ◌, ◌≤ℤ◌, IfOk, vec_len, vec_capacity};
ghost use Rattle.std.specs.List.{HoldsAt};
ghost use Rattle.network.specs.Calls.{Emptied};
ghost use Rattle.network.specs.Limits.{Lawful};
ghost use Rattle.square_network.specs.Answered;
ghost use Rattle.square_network.specs.Distances.{at};
ghost use Rattle.square_network.specs.Model.{modelled};
ghost use Rattle.square_network.specs.Shortest.{Shortest, Lengthened};

use crate::distances::Distances;
use crate::square::SquareNetwork;
use network::{Limit, LimitList, MAX_LIMITS, Network, check_limit};
use problem::Refusal;
use std::alloc::{AllocError, Global};

/// Puts behind the newest table a copy of it with the limit put on, which leaves the way back.
fn lengthen(tables: &mut Vec<Distances>, limit: Limit)
    requires some { 0 < vec_len tables.old }
    requires room { vec_len tables.old < vec_capacity tables.old }
    requires lawful { HoldsAt (λ d. Lawful d.day limit) tables.old.items (vec_len tables.old - 1) }
    requires free { HoldsAt (λ d. pos 0 ≤ℤ (at d.rows limit.y limit.x +ℤ limit.bound)) tables.old.items (vec_len tables.old - 1) }
    ensures items { Lengthened limit tables.old.items tables.new.items }
    ensures len { vec_len tables.new ≡ vec_len tables.old + 1 }
    ensures capacity { vec_capacity tables.new ≡ vec_capacity tables.old }
{
    let newest = tables.len() - 1;
    let copy = tables[newest];
    tables.push_reserved(copy);
    tables[newest + 1].shorten(limit);
}

impl SquareNetwork {
    /// The network of one event at minute 0, with no limits. Fails only for want of memory; no other call does.
    pub fn new(heap: Global) -> Result<SquareNetwork, AllocError>
        ensures { IfOk result (λ network. Emptied 1 0 (modelled network)) }
    {
        let limits = LimitList::new();
        let mut tables = Vec::with_capacity(heap, MAX_LIMITS + 1)?;
        tables.push_reserved(Distances::opened(limits.day()));
        Ok(SquareNetwork { limits, tables })
    }

    /// The shortest distances over all limits.
    fn shortest(&self) -> &Distances
        ensures newest { HoldsAt (λ d. result.now ≡ d) self.now.tables.items (vec_len self.now.tables - 1) }
        ensures shortest { Shortest (modelled self.now).day (modelled self.now).limits result.now }
    {
        &self.tables[self.limits.len()]
    }
}

impl Network for SquareNetwork {
    ghost net = { modelled };

    ghost sound = { Answered.sound };

    fn reset(&mut self, events: usize, horizon: u32) -> Result<(), Refusal> {
        self.limits.reset(events, horizon)?;
        self.tables.clear();
        self.tables
            .push_reserved(Distances::opened(self.limits.day()));
        Ok(())
    }

    fn push(&mut self, limit: Limit) -> Result<(), Refusal> {
        check_limit(self.limits.day(), self.limits.len(), limit)?;
        // no timetable goes round the limit and the way back in less than no time
        if self.shortest().distance(limit.y, limit.x) + limit.bound < 0 {
            return Err(Refusal::Clash);
        }
        self.limits.push(limit)?;
        lengthen(&mut self.tables, limit);
        Ok(())
    }

    fn pop(&mut self) -> Result<(), Refusal> {
        self.limits.pop()?;
        self.tables.truncate(self.limits.len() + 1);
        Ok(())
    }

    fn earliest(&self, event: usize) -> Result<u32, Refusal> {
        if event >= self.limits.day().events() {
            return Err(Refusal::NoSuchEvent);
        }
        let to_start = self.shortest().distance(0, event);
        Ok(-to_start as u32)
    }
}
