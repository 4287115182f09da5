//! What a static library of this crate exports.
ghost use Rattle.std.specs.Prelude.{◌≡◌, true};
ghost use Rattle.network_bench.specs.Scripts.{Checked};

use crate::runs::run;
use list_network::ListNetwork;
use square_network::SquareNetwork;
use std::alloc::Global;

/// Runs `setup` once and `script` so many times on a new list network, and tells the checksum of all answers.
#[unsafe(no_mangle)]
pub extern "C" fn network_bench_list(setup: &[u8], script: &[u8], repeats: u32) -> u64
    ensures { Checked setup.now script.now repeats result }
{
    let mut list = ListNetwork::new();
    run(&mut list, setup, script, repeats)
}

/// Runs `setup` once and `script` so many times on a new square network, and puts the checksum of all answers at
/// `checksum`. Is false where no memory is left for the network.
#[unsafe(no_mangle)]
pub extern "C" fn network_bench_square(
    heap: Global,
    setup: &[u8],
    script: &[u8],
    repeats: u32,
    checksum: &mut u64,
) -> bool
    ensures { result ≡ true → Checked setup.now script.now repeats checksum.new }
{
    let Ok(mut square) = SquareNetwork::new(heap) else {
        return false;
    };
    *checksum = run(&mut square, setup, script, repeats);
    true
}
