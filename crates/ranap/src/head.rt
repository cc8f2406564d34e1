// The first four bytes of a frame.
use rules::item::FrameKind;

#[derive(Clone, Copy)]
pub struct Head {
    pub kind: FrameKind,
    pub place: u8,
    // At most 32. No ghost field says so: the definition `head_of`, which makes a head too, would have to prove it.
    pub count: usize,
}
