// Refusals, expiry, questions, and a pool that was not empty.
use crate::steps::{asking, blank, counted, lists, refused, tells};
use admission::{RadioPool, RatePool};
use controller::Controller;
use rules::refusal::Refusal;
use std::test::*;

// What `counted` says of a call, of an opening, which reports nothing.
fn told(answer: Result<(), Refusal>) -> (u8, usize) {
    counted(answer.map(|()| 0))
}

#[test]
fn opening(rt: HostRuntime) -> Result<(), Fail> {
    let mut c = Controller::new(1, RatePool::new(10), rt.alloc())?;
    assert_eq!(rt; told(c.open(16, 7, 1)), (4, 16));
    assert_eq!(rt; told(c.open(0, 7, 2)), (7, 0));
    assert_eq!(rt; told(c.open(15, 7, 1)), (0, 0));
    assert_eq!(rt; told(c.open(15, 8, 0)), (5, 15));
    assert_eq!(rt; told(c.open(3, 7, 1)), (6, 3));
    assert_eq!(rt; told(c.open(3, 7, 0)), (0, 0));
    Ok(())
}

#[test]
fn frames_at_closed_places(rt: HostRuntime) -> Result<(), Fail> {
    let mut c = Controller::new(1, RatePool::new(10), rt.alloc())?;
    assert_eq!(rt; refused(&mut c, &asking(0, 5, 8, 3, 7)), (4, 0));
    assert_eq!(rt; refused(&mut c, &[2, 200, 0, 0]), (4, 200));
    assert_eq!(rt; told(c.open(0, 7, 1)), (0, 0));
    assert_eq!(rt; refused(&mut c, &[3, 0, 0, 0]), (9, 0));
    assert_eq!(rt; refused(&mut c, &[4, 0, 0, 0]), (9, 0));
    Ok(())
}

#[test]
fn a_short_list(rt: HostRuntime) -> Result<(), Fail> {
    let mut c = Controller::new(1, RatePool::new(10), rt.alloc())?;
    let mut list = blank();
    let mut short = [list[0]; 287];
    assert_eq!(rt; counted(c.frame(&[], &mut short)), (1, 0));
    assert_eq!(rt; counted(c.expiry(9, 9, &mut short)), (1, 0));
    assert_eq!(rt; counted(c.frame(&[], &mut list)), (2, 0));
    assert_eq!(rt; counted(c.expiry(9, 9, &mut list)), (4, 9));
    Ok(())
}

#[test]
fn all_that_wait_fail_at_an_expiry(rt: HostRuntime) -> Result<(), Fail> {
    let mut c = Controller::new(1, RatePool::new(4), rt.alloc())?;
    let mut list = blank();
    assert_eq!(rt; told(c.open(2, 7, 1)), (0, 0));
    assert_eq!(rt; counted(c.expiry(2, 3, &mut list)), (7, 2));
    assert_eq!(rt; counted(c.expiry(2, 1, &mut list)), (9, 2));
    assert!(rt; !c.is_running(2, 1));
    assert!(rt; tells(&mut c, &asking(2, 8, 5, 4, 4), &[[2, 2, 8, 0, 0]]));
    assert!(rt; tells(&mut c, &asking(2, 1, 6, 3, 4), &[[2, 2, 1, 0, 0]]));
    assert!(rt; c.is_running(2, 1));
    match c.expiry(2, 1, &mut list) {
        Ok(count) => assert!(rt; lists(&list, count, &[[3, 2, 8, 2, 0], [3, 2, 1, 2, 0]])),
        Err(_) => assert!(rt; false),
    }
    assert!(rt; !c.is_running(2, 1));
    Ok(())
}

#[test]
fn a_pool_is_emptied_first(rt: HostRuntime) -> Result<(), Fail> {
    let mut pool = RatePool::new(10);
    assert!(rt; pool.take(0, 9));
    assert!(rt; pool.take(63, 1));
    let mut c = Controller::new(1, pool, rt.alloc())?;
    assert_eq!(rt; c.held(0), 0);
    assert_eq!(rt; c.held(63), 0);
    assert_eq!(rt; told(c.open(0, 7, 1)), (0, 0));
    assert!(rt; tells(&mut c, &asking(0, 5, 10, 3, 7), &[[1, 0, 5, 0, 10]]));
    Ok(())
}
