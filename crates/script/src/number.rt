// Decimal numbers.
ghost use Rattle.script.specs.Adding.{Adds};
ghost use Rattle.script.specs.Numbers.{all_digits, decimal, value_up_to, number_of};
ghost use Rattle.script.specs.Script.{grant_named};
ghost use Rattle.std.specs.Option.{SomeIff};
ghost use Rattle.std.specs.Prelude.{◌≡◌, ◌+◌, ◌-◌, ◌*◌, ◌^◌, ◌<◌};

use crate::error::Error;
use crate::said::{Argument, Fault};

fn all_digits(word: &[u8]) -> bool
    ensures { result ≡ all_digits word.now }
{
    word.iter().all(u8::is_ascii_digit)
}

// Whether a word is one or more decimal digits.
fn is_decimal(word: &[u8]) -> bool
    ensures { result ≡ decimal word.now }
{
    !word.is_empty() && all_digits(word)
}

// The value of digits with one more after them, if it fits.
fn with_digit(value: u32, digit: &u8) -> Option<u32>
    ensures { SomeIff result (value * 10 + (digit.now - 48) < 2 ^ 32) (value * 10 + (digit.now - 48)) }
{
    value
        .checked_mul(10)?
        .checked_add(u32::from(digit.saturating_sub(b'0')))
}

// The value of decimal digits, if it is at most `most`.
fn value_up_to(word: &[u8], most: u32) -> Option<u32>
    ensures { result ≡ value_up_to most word.now }
{
    word.iter().try_fold(0, with_digit).filter(|n| *n <= most)
}

// The number that a word gives for an argument.
pub fn parse(argument: Argument, word: &[u8]) -> Result<u32, Fault>
    ensures { result ≡ number_of argument word.now }
{
    if !is_decimal(word) {
        return Err(Fault::NotDecimal(argument));
    }
    value_up_to(word, argument.most()).ok_or(Fault::OutOfRange(argument))
}

// Adds the grant number that a word names.
pub fn add_grant(word: &[u8], named: &mut Vec<u8>) -> Result<(), Error>
    ensures { Adds (grant_named word.now) named.old.items result named.new.items }
{
    // The cast loses nothing: the range is checked.
    named.push(parse(Argument::Grant, word)? as u8)?;
    Ok(())
}
