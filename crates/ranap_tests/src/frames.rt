// Frames made for a test, and what the reader and the message check say of them.
use ranap::receive;
use std::alloc::{AllocError, Global};

// A frame of a kind with a count and `len` bytes, which are 0 after the first four.
pub fn blank(heap: Global, kind: u8, count: u8, len: usize) -> Result<Vec<u8>, AllocError> {
    let mut frame = vec![in heap; 0u8; len]?;
    put(&mut frame, 0, kind);
    put(&mut frame, 3, count);
    Ok(frame)
}

// Bytes one after the other, from an offset on, as far as the frame goes.
pub fn put_all(frame: &mut [u8], at: usize, bytes: &[u8]) {
    for (place, byte) in frame.iter_mut().skip(at).zip(bytes) {
        *place = *byte;
    }
}

pub fn put(frame: &mut [u8], at: usize, byte: u8) {
    put_all(frame, at, &[byte]);
}

// Pair `i`.
pub fn pair(frame: &mut [u8], i: usize, offset: u8, length: u8) {
    put_all(
        frame,
        i.saturating_mul(4).saturating_add(4),
        &[0, offset, 0, length],
    );
}

// Flat, so that one table of a test has what is read and what is refused.
// Number, layer and place of the refusal; or 0, 0 and the count of items read.
pub fn told(frame: &[u8]) -> (u8, u8, usize) {
    match receive(frame) {
        Ok(message) => (0, 0, message.items().len()),
        Err(refusal) => (
            refusal.number(),
            refusal.layer(),
            usize::from(refusal.place),
        ),
    }
}
