// The frame reader: what a frame says, or the place of its first fault.
ghost use Rattle.std.specs.Prelude.{◌≡◌, ◌+◌, ◌*◌, ◌≤◌, All, length, if◌then◌else◌, Some, None};
ghost use Rattle.ranap.specs.Formed.{Reads};
ghost use Rattle.ranap.specs.Head.{head_of};
ghost use Rattle.ranap.specs.Steps.{unless_fault, pair_in, pairs_in, items_read, items_answered, body_read};
ghost use Rattle.ranap.specs.View.{answered, saying, listed};
ghost use Rattle.rules.specs.Frame.{word, broken, count_at, pair_at, end_of, pair_good, pair_fault, pairs_of, item_fault, bytes_at, item_good, item_in, flags_at, priority_at, message_with, read as frame-read};

use crate::head::Head;
use crate::items::Items;
use crate::message::Message;
use rules::item::{Assignment, Flags, FrameKind, Item, Pair, Priority, ReadItem};
use rules::refusal::{Reason, Refusal};

// A broken frame, by the place of its first fault.
fn broken_at(place: u16) -> Refusal
    ensures { result ≡ broken place }
{
    Refusal {
        reason: Reason::BrokenFrame,
        place,
    }
}

// Kind, place and count of items.
fn read_head(frame: &[u8]) -> Result<Head, Refusal>
    ensures { result ≡ head_of frame.now }
{
    let &[first, place, high, low, ..] = frame else {
        return Err(broken_at(0));
    };
    if frame.len() > 1024 {
        return Err(broken_at(0));
    }
    let Ok(kind) = FrameKind::try_from(first) else {
        return Err(broken_at(0));
    };
    let count = usize::from(u16::from_be_bytes([high, low]));
    if !kind.items().contains(&count) {
        return Err(broken_at(2));
    }
    if 4 + 4 * count > frame.len() {
        return Err(broken_at(2));
    }
    Ok(Head { kind, place, count })
}

// The bytes of the pairs, which stand behind the head.
fn pairs_of(frame: &[u8], count: usize) -> &[[u8; 4]]
    requires { 4 + 4 * count ≤ length frame.now }
    ensures pairs { pairs_in result.now ≡ pairs_of frame.now count }
    ensures len { length result.now ≡ count }
{
    let (pairs, _) = frame[4..4 + 4 * count].as_chunks();
    pairs
}

// No From for pairs, flags and priorities: their types are of another crate, and only the reader knows these bytes.
// A pair as its four bytes say it.
fn pair_of(bytes: [u8; 4]) -> Pair
    ensures { result ≡ pair_in bytes }
{
    let [high_offset, low_offset, high_length, low_length] = bytes;
    Pair {
        offset: u16::from_be_bytes([high_offset, low_offset]),
        length: u16::from_be_bytes([high_length, low_length]),
    }
}

fn end(pair: Pair) -> usize
    ensures { result ≡ end_of pair }
{
    usize::from(pair.offset) + usize::from(pair.length)
}

// Whether a pair's item begins at `from` or later, ends in a frame of `len` bytes and has one of the two lengths.
fn is_good(pair: Pair, from: usize, len: usize) -> bool
    ensures { result ≡ pair_good len from pair }
{
    usize::from(pair.offset) >= from && end(pair) <= len && matches!(pair.length, 3 | 6)
}

// The pair that four bytes say, if it is good.
fn good_pair(bytes: [u8; 4], from: usize, len: usize) -> Option<Pair>
    ensures { result ≡ (if pair_good len from (pair_in bytes) then Some (pair_in bytes) else None) }
{
    let pair = pair_of(bytes);
    is_good(pair, from, len).then_some(pair)
}

// Each pair in turn; the first that is not good is refused by its own offset.
fn check_pairs(pairs: &[[u8; 4]], len: usize) -> Result<(), Refusal>
    requires { length pairs.now ≤ 32 }
    ensures { result ≡ unless_fault (pair_fault len 0 (4 + 4 * length pairs.now) (pairs_in pairs.now)) }
{
    let mut from = 4 + 4 * pairs.len();
    for (i, &bytes) in pairs.iter().enumerate() {
        let Some(pair) = good_pair(bytes, from, len) else {
            // The cast loses nothing: there are at most 32 pairs.
            return Err(broken_at((4 + 4 * i) as u16));
        };
        from = end(pair);
    }
    Ok(())
}

fn flags_in(byte: u8) -> Flags
    ensures { result ≡ flags_at byte }
{
    Flags {
        parameters: byte & 1 != 0,
        priority: byte & 2 != 0,
        synchronisation: byte & 4 != 0,
        transport: byte & 8 != 0,
        plane: byte & 16 != 0,
    }
}

fn priority_in(level: u8, rights: u8) -> Priority
    ensures { result ≡ priority_at level rights }
{
    Priority {
        level,
        triggers: rights & 1 != 0,
        preemptable: rights & 2 != 0,
        queuing: rights & 4 != 0,
    }
}

// What the bytes of an item say, if they are those of an item.
fn item_of(bytes: &[u8]) -> Option<Item>
    ensures { result ≡ (if item_good bytes.now then Some (item_in bytes.now) else None) }
{
    match *bytes {
        [1, rab, flags, size, level, rights] if flags < 32 && rights < 8 => {
            Some(Item::Assign(Assignment {
                rab,
                flags: flags_in(flags),
                size,
                priority: priority_in(level, rights),
            }))
        }
        [2, rab, _] => Some(Item::Release(rab)),
        _ => None,
    }
}

// What the pair's item says, if it is one.
fn item_at(frame: &[u8], pair: Pair) -> Option<Item>
    requires { end_of pair ≤ length frame.now }
    ensures { result ≡ (if item_good (bytes_at frame.now pair) then Some (item_in (bytes_at frame.now pair)) else None) }
{
    item_of(&frame[usize::from(pair.offset)..end(pair)])
}

// Each item in turn; the first that is not good is refused by its offset.
fn read_items(frame: &[u8], pairs: &[[u8; 4]]) -> Result<Items, Refusal>
    requires few { length pairs.now ≤ 32 }
    requires inside { All (λ p. end_of (pair_in p) ≤ length frame.now) pairs.now }
    ensures { items_answered result ≡ items_read frame.now (pairs_in pairs.now) }
{
    let mut items = Items::empty();
    for &bytes in pairs {
        let pair = pair_of(bytes);
        let Some(item) = item_at(frame, pair) else {
            return Err(broken_at(pair.offset));
        };
        items.add(ReadItem {
            offset: pair.offset,
            item,
        });
    }
    Ok(items)
}

// All pairs are checked before any item.
fn read_body(frame: &[u8], count: usize) -> Result<Items, Refusal>
    requires few { count ≤ 32 }
    requires long { 4 + 4 * count ≤ length frame.now }
    ensures { items_answered result ≡ body_read frame.now count }
{
    let pairs = pairs_of(frame, count);
    check_pairs(pairs, frame.len())?;
    read_items(frame, pairs)
}

fn message_of(head: Head, items: Items) -> Message
    ensures { saying result ≡ message_with head.kind head.place (listed items) }
{
    match head.kind {
        FrameKind::RabAssignmentRequest => Message::RabAssignmentRequest(head.place, items),
        FrameKind::IuReleaseCommand => Message::IuReleaseCommand(head.place),
        FrameKind::RelocationCommand => Message::RelocationCommand(head.place),
        FrameKind::RelocationPreparationFailure => {
            Message::RelocationPreparationFailure(head.place)
        }
    }
}

// What a frame says, or the place of its first fault. It is accepted exactly when it is well formed.
pub fn read(frame: &[u8]) -> Result<Message, Refusal>
    ensures answer { answered result ≡ frame-read frame.now }
    ensures formed { Reads frame.now (answered result) }
{
    let head = read_head(frame)?;
    let items = read_body(frame, head.count)?;
    Ok(message_of(head, items))
}
