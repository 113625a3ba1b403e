ghost use Rattle.std.specs.Prelude.{◌≡◌, ◌≢◌, map, IfOk, IfSome, IfNone, IsSomeAnd, MatchBool, MatchOption, option_copied};
ghost use Rattle.least_collision.specs.Collision.{digested_text, HasNoPartner, IsLeastCollision, IsLeastPair, IsLeastPartner, NoCollision, NoneShareDigest, ShareDigest, SomeShareDigest};

use crate::collision::Collision;
use crate::digested::Digested;
use nim_base::{NoMemory, Text};
use std::alloc::Global;
use std::collections::BTreeMap;

/// The least pair, in byte order, of different texts with one SHA-256 digest. Where there is none,
/// each text costs its digest and one look-up in a map.
pub fn least_collision<'a>(
    alloc: Global,
    texts: &'a [Text],
) -> Result<Option<Collision<'a>>, NoMemory>
    ensures none { IfOk result
        (λ found. IfNone found (NoCollision (map (λ text. text.bytes) texts.now))) }
    ensures least { IfOk result (λ found. IfSome found
        (λ pair. IsLeastCollision (map (λ text. text.bytes) texts.now) pair.one.now pair.other.now)) }
{
    let given = with_digests(alloc, texts)?;
    least_collision_among(alloc, &given)
}

/// Each text beside its SHA-256 digest, in order.
fn with_digests<'a>(alloc: Global, texts: &'a [Text]) -> Result<Vec<Digested<'a>>, NoMemory>
    ensures { IfOk result
        (λ given. given.items ≡ map digested_text (map (λ text. text.bytes) texts.now)) }
{
    let mut given = Vec::with_capacity(alloc, texts.len())?;
    for text in texts {
        given.push(Digested::of(text.bytes()))?;
    }
    Ok(given)
}

/// The least pair, in byte order, of different texts that are given with one digest.
pub fn least_collision_among<'a>(
    alloc: Global,
    given: &[Digested<'a>],
) -> Result<Option<Collision<'a>>, NoMemory>
    ensures none { IfOk result (λ found. IfNone found (NoneShareDigest given.now)) }
    ensures least { IfOk result (λ found. IfSome found
        (λ pair. IsLeastPair (ShareDigest given.now) pair.one.now pair.other.now)) }
{
    if !has_collision(alloc, given)? {
        return Ok(None);
    }
    Ok(least_pair(given))
}

/// Whether two different texts are given with one digest.
fn has_collision(alloc: Global, given: &[Digested<'_>]) -> Result<bool, NoMemory>
    ensures { IfOk result
        (λ found. MatchBool found (SomeShareDigest given.now) (NoneShareDigest given.now)) }
{
    let mut texts = BTreeMap::new(alloc);
    for item in given {
        let Ok(before) = texts.insert(item.digest, item.text) else {
            return Err(NoMemory);
        };
        if differs(before, item.text) {
            return Ok(true);
        }
    }
    Ok(false)
}

/// Whether there was a text before, and another one.
fn differs(before: Option<&[u8]>, text: &[u8]) -> bool
    ensures { MatchBool result
        (IsSomeAnd (option_copied before.entry) (λ known. known ≢ text.now))
        (IfSome (option_copied before.entry) (λ known. known ≡ text.now)) }
{
    match before {
        Some(known) => known != text,
        None => false,
    }
}

/// The least pair of all. It compares each text with each other one: nobody knows two texts with
/// one SHA-256 digest, so no long list ever comes here.
fn least_pair<'a>(given: &[Digested<'a>]) -> Option<Collision<'a>>
    ensures { MatchOption result (NoneShareDigest given.now)
        (λ pair. IsLeastPair (ShareDigest given.now) pair.one.now pair.other.now) }
{
    let mut least: Option<Collision<'a>> = None;
    for item in given {
        if let Some(other) = least_partner(given, item) {
            let pair = Collision {
                one: item.text,
                other,
            };
            least = Some(match least {
                Some(best) => best.min(pair),
                None => pair,
            });
        }
    }
    least
}

/// The least text that differs from this one and is given with its digest.
fn least_partner<'a>(given: &[Digested<'a>], one: &Digested<'_>) -> Option<&'a [u8]>
    ensures { MatchOption result (HasNoPartner given.now one.now)
        (λ text. IsLeastPartner given.now one.now text.now) }
{
    let mut least: Option<&'a [u8]> = None;
    for item in given {
        if item.digest == one.digest && item.text != one.text {
            least = Some(match least {
                Some(best) => best.min(item.text),
                None => item.text,
            });
        }
    }
    least
}
