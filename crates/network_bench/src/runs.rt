//! Running scripts of calls, and the checksum of their answers.
ghost use Rattle.std.specs.Prelude.{ℕ, List, ◌++◌};
ghost use Rattle.network.specs.Nets.{Net};
ghost use Rattle.network_bench.specs.Scripts.{Acts, Ran, records, repeated};

use crate::records::{RECORD_SIZE, Record};
use network::{Call, Network, Reply};

// above every refusal's number, so that minutes and refusals differ
const FIRST_MINUTE: u32 = 100;

/// Makes the call, and tells its answer as a number: 0 where there is nothing to tell, 100 and the minute, or the number
/// of the refusal.
fn answer<N: Network>(network: &mut N, call: Call) -> u32
    ensures { Acts (N.net network.old) call result (N.net network.new) }
{
    match call.make(network) {
        Ok(Reply::Done) => 0,
        Ok(Reply::Minute(minute)) => minute.wrapping_add(FIRST_MINUTE),
        Err(refusal) => refusal.number(),
    }
}

/// Makes the calls of a script, and takes their answers into the checksum.
fn run_once<N: Network>(network: &mut N, script: &[[u8; RECORD_SIZE]], before: u64) -> u64
    ensures { (m : Net) (rs : List (List ℕ)) → Ran m rs before (N.net network.old) → Ran m (rs ++ script.now) result (N.net network.new) }
{
    let mut checksum = before;
    for bytes in script {
        let number = answer(network, Call::from(Record(*bytes)));
        checksum = checksum.wrapping_mul(31).wrapping_add(u64::from(number));
    }
    checksum
}

/// Makes the calls of `setup` once and those of `script` so many times: the checksum of all answers.
pub(crate) fn run<N: Network>(network: &mut N, setup: &[u8], script: &[u8], repeats: u32) -> u64
    ensures { Ran (N.net network.old) (records setup.now ++ repeated repeats (records script.now)) result (N.net network.new) }
{
    let (first, _) = setup.as_chunks::<RECORD_SIZE>();
    let (again, _) = script.as_chunks::<RECORD_SIZE>();
    let mut checksum = run_once(network, first, 0);
    for _turn in 0..repeats {
        checksum = run_once(network, again, checksum);
    }
    checksum
}
