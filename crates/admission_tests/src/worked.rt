// Worked examples, run.
use admission::{CodeTree, GrantSet, RadioPool, RatePool};

#[test]
fn the_lowest_block(rt: HostRuntime) {
    let mut tree = CodeTree::new();
    for (grant, size) in [(0u8, 64u8), (1, 64), (2, 64), (3, 1)] {
        assert!(rt; tree.take(grant, size));
    }
    assert!(rt; tree.room(&GrantSet::empty(), 32));
    assert!(rt; !tree.room(&GrantSet::empty(), 33));
}

#[test]
fn a_full_tree(rt: HostRuntime) {
    let mut tree = CodeTree::new();
    let nothing = GrantSet::empty();
    for grant in 0..16u8 {
        assert!(rt; tree.take(grant, 16));
    }
    assert!(rt; !tree.room(&nothing, 1));
    assert!(rt; tree.room(&GrantSet::full(), 64));
    for half in 0..8u8 {
        assert!(rt; tree.give(2 * half));
    }
    assert!(rt; tree.room(&nothing, 16));
    assert!(rt; !tree.room(&nothing, 17));
}

#[test]
fn what_is_left_of_a_rate(rt: HostRuntime) {
    let mut pool = RatePool::new(10);
    let mut eight = GrantSet::empty();
    eight.insert(0);
    assert!(rt; pool.take(0, 8));
    assert!(rt; pool.room(&GrantSet::empty(), 2));
    assert!(rt; !pool.room(&GrantSet::empty(), 3));
    assert!(rt; pool.room(&eight, 3));
}
