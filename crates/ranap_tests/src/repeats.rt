// RAB IDs that come twice.
use crate::frames::{blank, pair, put, put_all, told};
use std::test::Fail;

// Four releases at 20, 23, 26 and 29: the first item that repeats a RAB ID is refused by its offset.
#[test]
fn repeated_rabs(rt: HostRuntime) -> Result<(), Fail> {
    let cases = [
        ([5, 6, 6, 5], (3, 2, 26)),
        ([5, 6, 7, 5], (3, 2, 29)),
        ([5, 5, 5, 5], (3, 2, 23)),
        ([0, 255, 1, 254], (0, 0, 4)),
    ];
    for (rabs, wanted) in cases {
        let mut frame = blank(rt.alloc(), 1, 4, 32)?;
        for (i, (offset, rab)) in [20u8, 23, 26, 29].into_iter().zip(rabs).enumerate() {
            pair(&mut frame, i, offset, 3);
            put_all(&mut frame, usize::from(offset), &[2, rab, 0]);
        }
        assert_eq!(rt; told(&frame), wanted);
    }
    Ok(())
}

// A release repeats a set-up, and a broken frame comes before a repeated RAB.
#[test]
fn repeated_across_kinds(rt: HostRuntime) -> Result<(), Fail> {
    let mut frame = blank(rt.alloc(), 1, 2, 30)?;
    pair(&mut frame, 0, 12, 6);
    pair(&mut frame, 1, 20, 3);
    put_all(&mut frame, 12, &[1, 9, 0x1b, 8, 3, 7]);
    put_all(&mut frame, 20, &[2, 9, 0]);
    assert_eq!(rt; told(&frame), (3, 2, 20));
    put(&mut frame, 20, 3);
    assert_eq!(rt; told(&frame), (2, 1, 20));
    Ok(())
}
