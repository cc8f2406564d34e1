// The frame's length, its kind and its count of items.
use crate::frames::{blank, pair, put, put_all, told};
use std::test::Fail;

#[test]
fn frame_lengths(rt: HostRuntime) -> Result<(), Fail> {
    assert_eq!(rt; told(&[]), (2, 1, 0));
    for (len, place) in [(3, 2), (4, 0), (1024, 0), (1025, 2)] {
        let frame = blank(rt.alloc(), 2, 0, len)?;
        assert_eq!(rt; told(&frame), (place, place / 2, 0));
    }
    Ok(())
}

#[test]
fn frame_kinds(rt: HostRuntime) -> Result<(), Fail> {
    for (kind, number) in [(0, 2), (2, 0), (3, 0), (4, 0), (5, 2), (129, 2)] {
        let frame = blank(rt.alloc(), kind, 0, 4)?;
        assert_eq!(rt; told(&frame), (number, number / 2, 0));
    }
    Ok(())
}

// A RAB ASSIGNMENT REQUEST of 1 to 32 items is read, of 0 or 33 refused at 2.
#[test]
fn counts_of_requests(rt: HostRuntime) -> Result<(), Fail> {
    for count in [0u8, 1, 32, 33] {
        let n = usize::from(count);
        let mut frame = blank(rt.alloc(), 1, count, 4 + 7 * n)?;
        for i in 0..count {
            let offset = (4 + 4 * n + 3 * usize::from(i)) & 255;
            pair(&mut frame, usize::from(i), offset as u8, 3);
            put_all(&mut frame, offset, &[2, i, 0]);
        }
        let wanted = if count == 1 || count == 32 {
            (0, 0, n)
        } else {
            (2, 1, 2)
        };
        assert_eq!(rt; told(&frame), wanted);
    }
    Ok(())
}

// The other kinds have no items.
#[test]
fn counts_of_others(rt: HostRuntime) -> Result<(), Fail> {
    for kind in [2u8, 3, 4] {
        for (count, number) in [(0u8, 0u8), (1, 2), (32, 2), (33, 2)] {
            let frame = blank(rt.alloc(), kind, count, 300)?;
            let wanted = (number, number / 2, usize::from(number));
            assert_eq!(rt; told(&frame), wanted);
        }
    }
    Ok(())
}

// The high byte of the count counts; pairs past the end are refused at 2 too.
#[test]
fn high_bytes_and_short_pairs(rt: HostRuntime) -> Result<(), Fail> {
    let mut frame = blank(rt.alloc(), 1, 1, 20)?;
    put(&mut frame, 2, 1);
    assert_eq!(rt; told(&frame), (2, 1, 2));
    let frame = blank(rt.alloc(), 1, 4, 19)?;
    assert_eq!(rt; told(&frame), (2, 1, 2));
    Ok(())
}
