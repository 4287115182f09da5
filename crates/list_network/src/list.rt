//! The network: its limits as a list, with the smallest minutes of each beginning of the list.
ghost use Rattle.std.specs.Prelude.{◌≡◌, ◌+◌, length};
ghost use Rattle.std.proofs.Props.{props};
ghost use Rattle.network.specs.Limits.{max_limits};
ghost use Rattle.network.specs.Lists.{net_of};
ghost use Rattle.list_network.specs.Smallest.{Stacked};

use network::{LimitList, MAX_LIMITS};
use problem::MAX_EVENTS;

pub mod calls;

/// A network that keeps a list of limits, and for each beginning of the list the smallest minutes that meet it: a push
/// goes on from the newest of them, and a pop leaves the others as they are.
#[derive(Drop)]
pub struct ListNetwork {
    limits: LimitList,
    // at k: the smallest minutes for the first k limits; past the number of limits nothing is read
    times: [[u16; MAX_EVENTS]; MAX_LIMITS + 1],
    ghost rows: { length times ≡ max_limits + 1 },
    ghost stacked: { Stacked (net_of limits) times } by { Prim.hlevel props },
}
