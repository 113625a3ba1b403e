ghost use Rattle.std.specs.Prelude.{◌≡◌, ◌<◌, ◌≤◌, ◌==◌, ◌^◌, true, IfOk, IfSome, length, map};
ghost use Rattle.std.specs.Option.{option_map};
ghost use Rattle.std.specs.List.{list_all, slice_split};
ghost use Rattle.fault_script.specs.Outcome.{Gives};
ghost use Rattle.fault_script.specs.Words.{ids_in, ids_of, is_digit, is_letter, is_name, is_name_byte, is_number, is_payload, is_payload_byte, name_in, number_in, number_within, payload_in, rising, value, word_at};

use crate::bad_cause::BadCause;
use crate::line_fault::LineFault;
use nim_base::{NoMemory, Text};
use std::alloc::Global;

/// The parts of some bytes between the separators.
pub(crate) fn parts(alloc: Global, bytes: &[u8], separator: u8) -> Result<Vec<&[u8]>, NoMemory>
    ensures { IfOk result (λ found. map (λ part. part.now) found.items
        ≡ slice_split (λ b. b == separator) bytes.now) }
{
    match bytes.split(|b| *b == separator).collect(alloc) {
        Ok(found) => Ok(found),
        Err(_) => Err(NoMemory),
    }
}

/// The word at a place, or no bytes where there is none.
pub(crate) fn word<'w>(words: &[&'w [u8]], place: usize) -> &'w [u8]
    ensures { result.now ≡ word_at (map (λ word. word.now) words.now) place }
{
    if place < words.len() {
        words[place]
    } else {
        b""
    }
}

fn is_letter(b: u8) -> bool
    ensures { result ≡ is_letter b }
{
    b.is_ascii_lowercase() || b.is_ascii_uppercase()
}

fn is_digit(b: u8) -> bool
    ensures { result ≡ is_digit b }
{
    b.is_ascii_digit()
}

fn is_name_byte(b: u8) -> bool
    ensures { result ≡ is_name_byte b }
{
    is_letter(b) || is_digit(b) || b == b'_'
}

fn are_name_bytes(bytes: &[u8]) -> bool
    ensures { result ≡ list_all is_name_byte bytes.now }
{
    bytes.iter().all(|b| is_name_byte(*b))
}

fn is_name(word: &[u8]) -> bool
    ensures { result ≡ is_name word.now }
{
    !word.is_empty() && word.len() <= 16 && is_letter(word[0]) && are_name_bytes(word)
}

fn is_payload_byte(b: u8) -> bool
    ensures { result ≡ is_payload_byte b }
{
    b.is_ascii_lowercase() || is_digit(b)
}

fn are_payload_bytes(bytes: &[u8]) -> bool
    ensures { result ≡ list_all is_payload_byte bytes.now }
{
    bytes.iter().all(|b| is_payload_byte(*b))
}

fn is_payload(word: &[u8]) -> bool
    ensures { result ≡ is_payload word.now }
{
    !word.is_empty() && word.len() <= 65537 && word[0] == b'=' && are_payload_bytes(&word[1..])
}

fn are_digits(bytes: &[u8]) -> bool
    ensures { result ≡ list_all is_digit bytes.now }
{
    bytes.iter().all(|b| is_digit(*b))
}

fn is_number(word: &[u8]) -> bool
    ensures { result ≡ is_number word.now }
{
    !word.is_empty() && are_digits(word) && (word.len() == 1 || word[0] != b'0')
}

fn value(word: &[u8]) -> u64
    requires digits { list_all is_digit word.now ≡ true }
    requires few { length word.now ≤ 10 }
    ensures { result ≡ value word.now }
{
    let mut value = 0;
    for digit in word {
        value = value * 10 + u64::from(*digit - b'0');
    }
    value
}

/// The number from `low` to `high` that a word is in decimal, without leading zeros. No limit has more
/// than ten digits.
#[tactic(auto, unfolding(crate::specs::Words::number_within))]
fn number_within(low: u64, high: u64, word: &[u8]) -> Option<u64>
    requires { high < 10 ^ 10 }
    ensures number { result ≡ number_within low high word.now }
    ensures limit { IfSome result (λ number. number ≤ high) }
{
    if is_number(word) && word.len() <= 10 {
        let value = value(word);
        if low <= value && value <= high {
            return Some(value);
        }
    }
    None
}

pub(crate) fn number_in(low: u64, high: u64, word: &[u8]) -> Result<u64, LineFault>
    requires { high < 10 ^ 10 }
    ensures number { Gives (λ number. number) result (number_in low high word.now) }
    ensures limit { IfOk result (λ number. number ≤ high) }
{
    match number_within(low, high, word) {
        Some(value) => Ok(value),
        None => Err(LineFault::Bad(BadCause::Number)),
    }
}

/// The id of an endorser.
pub(crate) fn id_in(word: &[u8]) -> Result<u32, LineFault>
    ensures { Gives (λ number. number) result (number_in 1 64 word.now) }
{
    let id = number_in(1, 64, word)?;
    Ok(id as u32)
}

/// The ids of a list, or `None` where it is none.
#[tactic(auto, unfolding(crate::specs::Words::ids_of))]
fn ids_of(alloc: Global, word: &[u8]) -> Result<Option<Vec<u32>>, NoMemory>
    ensures { IfOk result (λ found. option_map (λ ids. ids.items) found ≡ ids_of word.now) }
{
    let parts = parts(alloc, word, b',')?;
    if parts.len() > 15 {
        return Ok(None);
    }
    rising(alloc, &parts)
}

fn rising(alloc: Global, words: &[&[u8]]) -> Result<Option<Vec<u32>>, NoMemory>
    ensures { IfOk result (λ found. option_map (λ ids. ids.items) found
        ≡ rising 0 (map (λ word. word.now) words.now)) }
{
    let mut ids = Vec::new(alloc);
    let mut last = 0;
    for word in words {
        let Some(id) = number_within(last + 1, 64, word) else {
            return Ok(None);
        };
        ids.push(id as u32)?;
        last = id;
    }
    Ok(Some(ids))
}

pub(crate) fn ids_in(alloc: Global, word: &[u8]) -> Result<Vec<u32>, LineFault>
    ensures { Gives (λ ids. ids.items) result (ids_in word.now) }
{
    match ids_of(alloc, word)? {
        Some(ids) => Ok(ids),
        None => Err(LineFault::Bad(BadCause::Ids)),
    }
}

pub(crate) fn name_in(alloc: Global, word: &[u8]) -> Result<Text, LineFault>
    ensures { Gives (λ name. name.bytes) result (name_in word.now) }
{
    if is_name(word) {
        Ok(Text::of(alloc, word)?)
    } else {
        Err(LineFault::Bad(BadCause::Name))
    }
}

pub(crate) fn payload_in(alloc: Global, word: &[u8]) -> Result<Text, LineFault>
    ensures { Gives (λ payload. payload.bytes) result (payload_in word.now) }
{
    if is_payload(word) {
        Ok(Text::of(alloc, &word[1..])?)
    } else {
        Err(LineFault::Bad(BadCause::Payload))
    }
}
