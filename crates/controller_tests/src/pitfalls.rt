// Cases that are easily mistaken.
use crate::steps::{asking, closing, tells};
use admission::{CodeTree, RatePool};
use controller::Controller;
use std::test::*;

// One sweep over the queue is not enough: RAB 4 moves, and frees the quarter that RAB 5, passed before it, waits for.
#[test]
fn the_queue_is_served_to_its_end(rt: HostRuntime) -> Result<(), Fail> {
    let mut c = Controller::new(1, CodeTree::new(), rt.alloc())?;
    assert!(rt; c.open(0, 7, 1).is_ok());
    assert!(rt; c.open(1, 8, 1).is_ok());
    for (place, rab, size) in [
        (0u8, 1u8, 64u8),
        (0, 2, 64),
        (1, 11, 32),
        (0, 3, 32),
        (0, 4, 16),
        (1, 12, 16),
        (1, 13, 32),
    ] {
        assert!(rt;
            tells(
                &mut c,
                &asking(place, rab, size, 3, 0),
                &[[1, place, rab, 0, size]],
            )
        );
    }
    assert!(rt; tells(&mut c, &asking(0, 5, 64, 1, 4), &[[2, 0, 5, 0, 0]]));
    assert!(rt; tells(&mut c, &asking(0, 4, 32, 2, 4), &[[2, 0, 4, 0, 0]]));
    assert!(rt;
        tells(
            &mut c,
            &closing(1),
            &[
                [7, 1, 11, 11, 0],
                [7, 1, 12, 11, 0],
                [7, 1, 13, 11, 0],
                [1, 0, 4, 0, 32],
                [1, 0, 5, 0, 64],
            ],
        )
    );
    Ok(())
}

// Level 15 is no priority: it is pre-empted by no level, though its item says that it may be.
#[test]
fn level_15_is_never_pre_empted(rt: HostRuntime) -> Result<(), Fail> {
    for level in [1u8, 14] {
        let mut c = Controller::new(1, RatePool::new(10), rt.alloc())?;
        assert!(rt; c.open(0, 7, 1).is_ok());
        assert!(rt; tells(&mut c, &asking(0, 5, 8, 15, 2), &[[1, 0, 5, 0, 8]]));
        assert!(rt; tells(&mut c, &asking(0, 9, 4, level, 1), &[[3, 0, 9, 6, 0]]));
    }
    Ok(())
}

#[test]
fn level_14_is_pre_empted(rt: HostRuntime) -> Result<(), Fail> {
    let mut c = Controller::new(1, RatePool::new(10), rt.alloc())?;
    assert!(rt; c.open(0, 7, 1).is_ok());
    assert!(rt; tells(&mut c, &asking(0, 5, 8, 14, 2), &[[1, 0, 5, 0, 8]]));
    assert!(rt;
        tells(
            &mut c,
            &asking(0, 9, 4, 13, 1),
            &[[6, 0, 5, 1, 0], [1, 0, 9, 0, 4]],
        )
    );
    Ok(())
}

// With 64 RABs known another set-up fails; the waiting one may be asked for again, since its own request counts no more.
#[test]
fn a_superseded_set_up_is_not_known(rt: HostRuntime) -> Result<(), Fail> {
    let mut c = Controller::new(1, RatePool::new(63), rt.alloc())?;
    assert!(rt; c.open(0, 7, 1).is_ok());
    for rab in 0..63u8 {
        assert!(rt; tells(&mut c, &asking(0, rab, 1, 3, 4), &[[1, 0, rab, 0, 1]]));
    }
    assert!(rt; tells(&mut c, &asking(0, 63, 1, 3, 4), &[[2, 0, 63, 0, 0]]));
    assert!(rt; tells(&mut c, &asking(0, 64, 1, 3, 4), &[[3, 0, 64, 12, 0]]));
    assert!(rt;
        tells(
            &mut c,
            &asking(0, 63, 1, 3, 4),
            &[[3, 0, 63, 9, 0], [2, 0, 63, 0, 0]],
        )
    );
    Ok(())
}
