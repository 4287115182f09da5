//! A network that keeps, for each number of its limits, the shortest distances over so many of them.
ghost use Rattle.std.specs.Prelude.{◌≡◌, ◌+◌, ◌≤◌, length, vec_len, vec_capacity};
ghost use Rattle.network.specs.Limits.{max_limits};
ghost use Rattle.network.specs.Lists.{net_of};
ghost use Rattle.square_network.specs.Shortest.{Held};

use crate::distances::Distances;
use network::LimitList;

pub mod calls;

/// A network that answers from the shortest distances between all pairs of its events. It keeps a table of them for
/// each number of its limits, from none to all, so that a pop costs nothing; room for all tables is taken when it is
/// made.
#[derive(Drop)]
pub struct SquareNetwork {
    limits: LimitList,
    tables: Vec<Distances>,
    ghost room: { max_limits + 1 ≤ vec_capacity tables },
    ghost each: { vec_len tables ≡ length (net_of limits).limits + 1 },
    // the table at k has the shortest distances over the first k limits
    ghost held: { Held (net_of limits).day (net_of limits).limits tables.items },
}
