// Sizes, grant numbers and capacities at their limits and past them.
use admission::{CodeTree, GrantSet, RadioPool, RatePool};
use std::test::Fail;

fn sizes_of_a_new_pool<P: RadioPool>(pool: &P) -> Result<(), Fail> {
    let nothing = GrantSet::empty();
    for (size, admitted) in [
        (0u8, false),
        (1, true),
        (63, true),
        (64, true),
        (65, false),
        (255, false),
    ] {
        if pool.room(&nothing, size) != admitted {
            return Err(Fail::new("a size at the limits is not answered as it should be"));
        }
    }
    Ok(())
}

// A held number, and one over 63, is not taken; one that is not held is not given back.
fn numbers_of_a_new_pool<P: RadioPool>(pool: &mut P) -> Result<(), Fail> {
    for (grant, taken) in [(63u8, true), (63, false), (64, false), (255, false)] {
        if pool.take(grant, 64) != taken {
            return Err(Fail::new("a take is not answered as it should be"));
        }
    }
    for (grant, size) in [(62u8, 0u8), (63, 64), (64, 0), (255, 0)] {
        if pool.held(grant) != size {
            return Err(Fail::new("a number does not hold what it should"));
        }
    }
    for (grant, given) in [
        (62u8, false),
        (64, false),
        (255, false),
        (63, true),
        (63, false),
    ] {
        if pool.give(grant) != given {
            return Err(Fail::new("a give is not answered as it should be"));
        }
    }
    if pool.held(63) != 0 {
        return Err(Fail::new("number 63 is still held"));
    }
    Ok(())
}

#[test]
fn tree_edges() -> Result<(), Fail> {
    let mut tree = CodeTree::new();
    sizes_of_a_new_pool(&tree)?;
    numbers_of_a_new_pool(&mut tree)
}

#[test]
fn rate_edges() -> Result<(), Fail> {
    let mut pool = RatePool::new(64);
    sizes_of_a_new_pool(&pool)?;
    numbers_of_a_new_pool(&mut pool)
}

#[test]
fn small_capacities(rt: HostRuntime) {
    let nothing = GrantSet::empty();
    for (capacity, two) in [(0u16, false), (1, false), (2, true)] {
        let pool = RatePool::new(capacity);
        assert!(rt; pool.room(&nothing, 1));
        assert_eq!(rt; pool.room(&nothing, 2), two);
    }
}

// All 64 grants of size 64 fill the largest capacity.
#[test]
fn large_capacities(rt: HostRuntime) {
    for (capacity, last) in [(4095u16, false), (4096, true), (4097, true), (65535, true)] {
        let mut pool = RatePool::new(capacity);
        for grant in 0..63u8 {
            let _ = pool.take(grant, 64);
        }
        assert_eq!(rt; pool.take(63, 64), last);
        assert_eq!(rt; pool.room(&GrantSet::empty(), 1), !last);
    }
}

#[test]
fn sets(rt: HostRuntime) {
    let mut set = GrantSet::empty();
    for grant in [63u8, 64, 255] {
        set.insert(grant);
    }
    for (grant, named) in [
        (0u8, false),
        (62, false),
        (63, true),
        (64, false),
        (255, false),
    ] {
        assert_eq!(rt; set.contains(grant), named);
    }
    for (grant, named) in [(0u8, true), (63, true), (64, false), (255, false)] {
        assert_eq!(rt; GrantSet::full().contains(grant), named);
    }
}
