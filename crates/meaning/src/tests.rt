// Worked facts of the three meanings.
use crate::intransitive_purge::IntransitivePurge;
use crate::meaning::Meaning;
use crate::published::Published;
use crate::purge::Purge;
use crate::transmitted::TransmittedActions;
use policy::flows::Flows;
use policy::refusal::Refusal;
use std::test::Fail;

// Command c belongs to console c.
const OWNERS: [u8; 4] = [0, 1, 2, 3];

// Each pair's first console may affect its second.
fn flows(consoles: usize, pairs: &[(usize, usize)]) -> Result<Flows, Refusal> {
    let mut flows = Flows::bare(consoles)?;
    for (from, to) in pairs {
        flows.allow(*from, *to)?;
    }
    Ok(flows)
}

// Console 0 may affect console 1, and that one console 2.
fn chain() -> Result<Flows, Refusal> {
    flows(3, &[(0, 1), (1, 2)])
}

// Two chains that meet in console 4: from 0 by way of 2, and from 1 by way of 3.
fn two_chains() -> Result<Flows, Refusal> {
    flows(5, &[(0, 2), (1, 3), (2, 4), (3, 4)])
}

#[test]
fn what_follows_carries_a_command(rt: HostRuntime) -> Result<(), Fail> {
    let flows = chain()?;
    assert!(rt; !IntransitivePurge.alike(&flows, &OWNERS[0..2], 2, &[0, 1], &[1]));
    assert!(rt; IntransitivePurge.alike(&flows, &OWNERS[0..2], 2, &[1, 0], &[1]));
    assert!(rt; Purge.alike(&flows, &OWNERS[0..2], 2, &[0, 1], &[1]));
    Ok(())
}

#[test]
fn the_order_that_nobody_was_told_does_not_count(rt: HostRuntime) -> Result<(), Fail> {
    let flows = two_chains()?;
    assert!(rt; TransmittedActions.alike(&flows, &OWNERS, 4, &[0, 1, 2, 3], &[1, 0, 2, 3]));
    assert!(rt; !IntransitivePurge.alike(&flows, &OWNERS, 4, &[0, 1, 2, 3], &[1, 0, 2, 3]));
    assert!(rt; !TransmittedActions.alike(&flows, &OWNERS, 4, &[0, 1, 2, 3], &[0, 1, 3, 2]));
    assert!(rt; TransmittedActions.may_exchange(&flows, 4, 0, 1));
    assert!(rt; !IntransitivePurge.may_exchange(&flows, 4, 0, 1));
    assert!(rt; !TransmittedActions.may_exchange(&flows, 4, 2, 3));
    assert!(rt; TransmittedActions.may_follow_exchange(&flows, 4, 0, 1, 2));
    assert!(rt; !TransmittedActions.may_follow_exchange(&flows, 4, 2, 3, 4));
    Ok(())
}

#[test]
fn drops_follow_the_flows(rt: HostRuntime) -> Result<(), Fail> {
    let flows = chain()?;
    assert!(rt; Purge.may_drop(&flows, 2, 0) && !Purge.may_drop(&flows, 2, 1));
    assert!(rt; Purge.may_follow_drop(&flows, 2, 0, 1));
    assert!(rt; !IntransitivePurge.may_follow_drop(&flows, 2, 0, 1));
    assert!(rt; IntransitivePurge.may_follow_drop(&flows, 2, 0, 2));
    assert!(rt; !Purge.may_drop(&flows, 2, 3) && !TransmittedActions.may_exchange(&flows, 2, 0, 3));
    Ok(())
}

#[test]
fn out_of_range_is_never_alike(rt: HostRuntime) -> Result<(), Fail> {
    let flows = chain()?;
    let long = [1; 65];
    for meaning in [Published::P, Published::Ip, Published::Ta] {
        assert!(rt; meaning.alike(&flows, &OWNERS[0..2], 2, &[], &[]));
        assert!(rt; meaning.alike(&flows, &OWNERS[0..2], 2, &long[0..64], &long[0..64]));
        assert!(rt; !meaning.alike(&flows, &OWNERS[0..2], 2, &long, &long));
        assert!(rt; !meaning.alike(&flows, &OWNERS[0..2], 2, &[2], &[2]));
        assert!(rt; !meaning.alike(&flows, &OWNERS[0..2], 3, &[], &[]));
        assert!(rt; !meaning.alike(&flows, &OWNERS, 2, &[], &[]));
    }
    Ok(())
}
