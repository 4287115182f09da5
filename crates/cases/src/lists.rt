//! Lists of limits, which are equal where their days and limits are, whatever was taken off before.
ghost use Rattle.std.specs.Prelude.{◌≡◌, OnErr, OnOk};

use network::{Limit, LimitList};
use problem::Refusal;

/// The limit that event `x` comes at least a minute after event `y`.
fn after(x: usize, y: usize) -> Limit {
    Limit {
        x: y,
        y: x,
        bound: -1,
    }
}

/// Puts a limit on and takes it off again.
fn put_and_take_off(list: &mut LimitList, limit: Limit) -> Result<(), Refusal>
    ensures { list.new ≡ list.old }
{
    list.push(limit)?;
    list.pop()
}

/// Takes the newest limit off. A refusal changes nothing.
fn take_off(list: &mut LimitList) -> Result<(), Refusal>
    ensures { OnErr result (list.new ≡ list.old) }
{
    list.pop()
}

/// Empties both lists for one day.
fn empty_both(
    one: &mut LimitList,
    other: &mut LimitList,
    events: usize,
    horizon: u32,
) -> Result<(), Refusal>
    ensures { OnOk result (one.new ≡ other.new) }
{
    one.reset(events, horizon)?;
    other.reset(events, horizon)
}

#[test]
fn a_limit_that_is_taken_off_leaves_the_list_as_it_was(rt: HostRuntime) {
    let mut list = LimitList::new();
    assert_eq!(rt; list.reset(4, 60), Ok(()));
    assert_eq!(rt; put_and_take_off(&mut list, after(2, 1)), Ok(()));
    assert_eq!(rt; take_off(&mut list), Err(Refusal::NoLimit));
    assert_eq!(rt; list.push(after(3, 2)), Ok(()));
    assert_eq!(rt; put_and_take_off(&mut list, after(2, 1)), Ok(()));
    assert_eq!(rt;
        put_and_take_off(&mut list, after(4, 1)),
        Err(Refusal::EventPair)
    );
    assert_eq!(rt; list.as_slice(), [after(3, 2)].as_slice());
    assert_eq!(rt; take_off(&mut list), Ok(()));
    assert_eq!(rt; list.len(), 0);
}

/// Two new lists.
fn two_new() -> (LimitList, LimitList)
    ensures { result.0 ≡ result.1 }
{
    (LimitList::new(), LimitList::new())
}

#[test]
fn emptied_lists_of_one_day_are_equal(rt: HostRuntime) {
    let (mut one, mut other) = two_new();
    assert_eq!(rt; one.day().events(), 1);
    assert_eq!(rt; one.len(), other.len());
    assert_eq!(rt; one.reset(4, 60), Ok(()));
    assert_eq!(rt; one.push(after(2, 1)), Ok(()));
    assert_eq!(rt; empty_both(&mut one, &mut other, 3, 30), Ok(()));
    assert_eq!(rt; one.len(), 0);
    assert_eq!(rt; one.day().events(), 3);
    assert_eq!(rt;
        empty_both(&mut one, &mut other, 0, 30),
        Err(Refusal::EventCount)
    );
}
