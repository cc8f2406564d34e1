// Where items may stand, and what they may look like.
use crate::frames::{blank, pair, put, put_all, told};
use std::alloc::{AllocError, Global};
use std::test::Fail;

const SETUP: [u8; 6] = [1, 5, 0x1b, 8, 3, 7];

// One item of a length at an offset, in a frame of 20 bytes.
fn one_item(heap: Global, offset: u8, length: u8, item: &[u8]) -> Result<Vec<u8>, AllocError> {
    let mut frame = blank(heap, 1, 1, 20)?;
    pair(&mut frame, 0, offset, length);
    put_all(&mut frame, usize::from(offset), item);
    Ok(frame)
}

// After the pairs (at 8 here), and in the frame.
#[test]
fn item_offsets(rt: HostRuntime) -> Result<(), Fail> {
    for (offset, wanted) in [
        (8, (0, 0, 1)),
        (9, (0, 0, 1)),
        (14, (0, 0, 1)),
        (7, (2, 1, 4)),
        (15, (2, 1, 4)),
    ] {
        let mut frame = one_item(rt.alloc(), 8, 6, &[])?;
        put_all(&mut frame, usize::from(offset), &SETUP);
        pair(&mut frame, 0, offset, 6);
        assert_eq!(rt; told(&frame), wanted);
    }
    Ok(())
}

// Two items of 6 bytes, the first at 12: the second may touch it, not overlap it, nor stand before it.
#[test]
fn neighbours(rt: HostRuntime) -> Result<(), Fail> {
    for (second, wanted) in [
        (18, (0, 0, 2)),
        (17, (2, 1, 8)),
        (12, (2, 1, 8)),
        (24, (0, 0, 2)),
        (25, (2, 1, 8)),
    ] {
        let mut frame = blank(rt.alloc(), 1, 2, 30)?;
        put_all(&mut frame, 12, &SETUP);
        put_all(&mut frame, usize::from(second), &[1, 6, 0x1b, 8, 3, 7]);
        pair(&mut frame, 0, 12, 6);
        pair(&mut frame, 1, second, 6);
        assert_eq!(rt; told(&frame), wanted);
    }
    Ok(())
}

// Only 3 and 6 are lengths, and each goes with its own first byte.
#[test]
fn item_lengths(rt: HostRuntime) -> Result<(), Fail> {
    for length in 2..=7u8 {
        let frame = one_item(rt.alloc(), 10, length, &SETUP)?;
        let wanted = match length {
            6 => (0, 0, 1),
            3 => (2, 1, 10),
            _ => (2, 1, 4),
        };
        assert_eq!(rt; told(&frame), wanted);
    }
    let release = one_item(rt.alloc(), 10, 6, &[2, 5, 0])?;
    assert_eq!(rt; told(&release), (2, 1, 10));
    Ok(())
}

#[test]
fn first_bytes(rt: HostRuntime) -> Result<(), Fail> {
    for first in 0..=3u8 {
        let mut frame = one_item(rt.alloc(), 8, 6, &SETUP)?;
        put(&mut frame, 8, first);
        let wanted = if first == 1 { (0, 0, 1) } else { (2, 1, 8) };
        assert_eq!(rt; told(&frame), wanted);
        pair(&mut frame, 0, 8, 3);
        let wanted = if first == 2 { (0, 0, 1) } else { (2, 1, 8) };
        assert_eq!(rt; told(&frame), wanted);
    }
    Ok(())
}

// Flags have five bits and rights three; the other bits are 0, also where there is no priority.
#[test]
fn spare_bits(rt: HostRuntime) -> Result<(), Fail> {
    for (at, bits) in [(10, 5), (13, 3)] {
        for bit in 0..8u8 {
            let mut frame = one_item(rt.alloc(), 8, 6, &[1, 5, 0, 8, 3, 0])?;
            put(&mut frame, at, 1 << bit);
            let wanted = if bit < bits { (0, 0, 1) } else { (2, 1, 8) };
            assert_eq!(rt; told(&frame), wanted);
        }
    }
    Ok(())
}

// All pairs are checked before any item.
#[test]
fn late_pair_before_early_item(rt: HostRuntime) -> Result<(), Fail> {
    let mut frame = blank(rt.alloc(), 1, 2, 30)?;
    pair(&mut frame, 0, 12, 6);
    pair(&mut frame, 1, 18, 5);
    assert_eq!(rt; told(&frame), (2, 1, 8));
    pair(&mut frame, 1, 18, 3);
    assert_eq!(rt; told(&frame), (2, 1, 12));
    Ok(())
}
