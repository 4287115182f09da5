//! Calls on both networks, with their answers.
use list_network::ListNetwork;
use network::{Limit, Network};
use problem::Refusal;
use square_network::SquareNetwork;
use std::process::Abort;
use std::test::Fail;

/// Pushes the limit that event `x` comes at most `bound` minutes after event `y`.
fn push<N: Network>(network: &mut N, x: usize, y: usize, bound: i32) -> Result<(), Refusal> {
    network.push(Limit { x, y, bound })
}

/// A ring of gaps of at least a minute each clashes where it closes, and can be left again.
fn ring<N: Network>(rt: &impl Abort, network: &mut N) {
    assert_eq!(rt; network.reset(4, 60), Ok(()));
    assert_eq!(rt; push(network, 2, 1, -1), Ok(()));
    assert_eq!(rt; push(network, 3, 2, -1), Ok(()));
    assert_eq!(rt; push(network, 1, 3, -1), Err(Refusal::Clash));
    assert_eq!(rt; network.earliest(1), Ok(2));
    assert_eq!(rt; network.pop(), Ok(()));
    assert_eq!(rt; push(network, 1, 3, -1), Ok(()));
    assert_eq!(rt; network.earliest(3), Ok(2));
}

/// The list holds 64 limits; the order of refusals is 6, 7, 13.
fn full<N: Network>(rt: &impl Abort, network: &mut N) {
    assert_eq!(rt; network.reset(2, 60), Ok(()));
    for _ in 0..64 {
        assert_eq!(rt; push(network, 1, 0, 10_080), Ok(()));
    }
    assert_eq!(rt; push(network, 1, 0, 5), Err(Refusal::LimitCount));
    assert_eq!(rt; push(network, 1, 0, 10_081), Err(Refusal::BoundRange));
    assert_eq!(rt; push(network, 1, 1, 10_081), Err(Refusal::EventPair));
    assert_eq!(rt; network.pop(), Ok(()));
    assert_eq!(rt; push(network, 1, 0, -10_080), Err(Refusal::Clash));
    assert_eq!(rt; push(network, 0, 1, -60), Ok(()));
    assert_eq!(rt; network.earliest(1), Ok(60));
}

/// 32 events, each 300 minutes after the one before it, end at minute 9,300, and nothing comes 781 minutes later.
fn chain<N: Network>(rt: &impl Abort, network: &mut N) {
    assert_eq!(rt; network.reset(32, 10_080), Ok(()));
    for event in 1..32 {
        assert_eq!(rt; push(network, event - 1, event, -300), Ok(()));
    }
    assert_eq!(rt; network.earliest(31), Ok(9_300));
    assert_eq!(rt; network.earliest(32), Err(Refusal::NoSuchEvent));
    assert_eq!(rt; push(network, 0, 1, -1_081), Err(Refusal::Clash));
    assert_eq!(rt; push(network, 0, 1, -1_080), Ok(()));
    assert_eq!(rt; network.earliest(31), Ok(10_080));
}

/// The network answers all three as it should, one after the other.
fn answers_as_it_should<N: Network>(rt: &impl Abort, network: &mut N) {
    ring(rt, network);
    full(rt, network);
    chain(rt, network);
}

#[test]
fn the_list_network_answers_as_it_should(rt: HostRuntime) {
    answers_as_it_should(&rt, &mut ListNetwork::new());
}

#[test]
fn the_square_network_answers_as_it_should(rt: HostRuntime) -> Result<(), Fail> {
    answers_as_it_should(&rt, &mut SquareNetwork::new(rt.alloc())?);
    Ok(())
}
