// Worked runs over a rate pool of 10, with UE 7 on place 0 in the packet domain.
use crate::steps::{asking, refused, releasing, tells};
use admission::{RadioPool, RatePool};
use controller::Controller;
use std::alloc::Global;
use std::test::*;

// RAB 5 is set up with 8 of 10.
fn begin(alloc: Global) -> Result<Controller<RatePool>, Fail> {
    let mut c = Controller::new(1, RatePool::new(10), alloc)?;
    if c.open(0, 7, 1).is_err() {
        return Err(Fail::new("place 0 is not opened"));
    }
    if !tells(&mut c, &asking(0, 5, 8, 3, 7), &[[1, 0, 5, 0, 8]]) {
        return Err(Fail::new("RAB 5 is not set up"));
    }
    Ok(c)
}

#[test]
fn two_are_left(rt: HostRuntime) -> Result<(), Fail> {
    let mut c = begin(rt.alloc())?;
    assert!(rt; tells(&mut c, &asking(0, 6, 2, 3, 0), &[[1, 0, 6, 0, 2]]));
    Ok(())
}

#[test]
fn three_wait_until_a_release(rt: HostRuntime) -> Result<(), Fail> {
    let mut c = begin(rt.alloc())?;
    assert!(rt; tells(&mut c, &asking(0, 6, 3, 3, 4), &[[2, 0, 6, 0, 0]]));
    assert!(rt;
        tells(
            &mut c,
            &releasing(0, 5),
            &[[4, 0, 5, 0, 0], [1, 0, 6, 0, 3]],
        )
    );
    assert_eq!(rt; c.held(0), 3);
    Ok(())
}

#[test]
fn a_waiting_request_is_superseded(rt: HostRuntime) -> Result<(), Fail> {
    let mut c = begin(rt.alloc())?;
    assert!(rt; tells(&mut c, &asking(0, 6, 3, 3, 4), &[[2, 0, 6, 0, 0]]));
    assert!(rt;
        tells(
            &mut c,
            &asking(0, 6, 2, 3, 0),
            &[[3, 0, 6, 9, 0], [1, 0, 6, 0, 2]],
        )
    );
    Ok(())
}

#[test]
fn a_higher_level_pre_empts(rt: HostRuntime) -> Result<(), Fail> {
    let mut c = begin(rt.alloc())?;
    assert!(rt; tells(&mut c, &asking(0, 9, 4, 3, 1), &[[3, 0, 9, 6, 0]]));
    assert!(rt;
        tells(
            &mut c,
            &asking(0, 9, 4, 2, 1),
            &[[6, 0, 5, 1, 0], [1, 0, 9, 0, 4]],
        )
    );
    Ok(())
}

#[test]
fn overlapping_items(rt: HostRuntime) -> Result<(), Fail> {
    let mut c = begin(rt.alloc())?;
    let mut frame = [
        1, 0, 0, 2, 0, 12, 0, 6, 0, 17, 0, 6, 1, 6, 0x1b, 1, 3, 0, 1, 7, 0x1b, 1, 3, 0,
    ];
    assert_eq!(rt; refused(&mut c, &frame), (2, 8));
    frame[9] = 18;
    assert!(rt; tells(&mut c, &frame, &[[1, 0, 6, 0, 1], [1, 0, 7, 0, 1]]));
    Ok(())
}
