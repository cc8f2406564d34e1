// Hex digits.
ghost use Rattle.script.specs.Adding.{Adds};
ghost use Rattle.script.specs.Hex.{hex_digit, all_hex, group_fault, byte_of};
ghost use Rattle.script.specs.Script.{bytes_of};
ghost use Rattle.std.specs.Prelude.{◌≡◌, ◌≤◌, IfSome, MatchResult};

use crate::error::Error;
use crate::said::Fault;

// What a hex digit stands for, in either case of its letter.
fn hex_digit(b: u8) -> Option<u32>
    ensures value { result ≡ hex_digit b }
    ensures bound { IfSome result (λ d. d ≤ 15) }
{
    char::from(b).to_digit(16)
}

fn all_hex(word: &[u8]) -> bool
    ensures { result ≡ all_hex word.now }
{
    word.iter().all(|b| hex_digit(*b).is_some())
}

// What keeps a group of digits from being bytes.
fn check(word: &[u8]) -> Result<(), Fault>
    ensures { MatchResult result (λ _. group_fault word.now ≡ None) (λ f. group_fault word.now ≡ Some f) }
{
    if !all_hex(word) {
        return Err(Fault::NotHex);
    }
    if word.len() % 2 != 0 {
        return Err(Fault::OddHex);
    }
    Ok(())
}

// The byte that two digits make. Its caller has checked that they are digits; the definition reads any other byte as 0.
// The cast loses nothing: 15 * 16 + 15 is 255.
fn byte_of(high: u8, low: u8) -> u8
    ensures { result ≡ byte_of high low }
{
    (hex_digit(high).unwrap_or(0) * 16 + hex_digit(low).unwrap_or(0)) as u8
}

// Adds the bytes that a group of digits spells.
pub fn add_bytes(word: &[u8], bytes: &mut Vec<u8>) -> Result<(), Error>
    ensures { Adds (bytes_of word.now) bytes.old.items result bytes.new.items }
{
    check(word)?;
    for &[high, low] in word.as_chunks::<2>().0 {
        bytes.push(byte_of(high, low))?;
    }
    Ok(())
}
