//! Lines that hold a set.

ghost use Rattle.std.specs.Prelude.{◌≡◌, [], map, option_map, IfOk};
ghost use Rattle.texts.specs.Hex.{pair_of};
ghost use Rattle.facts.specs.domain.Sets.{rails_in, values_in};
ghost use Rattle.table_check.specs.text.Saying.{after_key, after_name, ascending, byte_set};
ghost use Rattle.table_check.specs.text.Saying.{some_bytes};
ghost use Rattle.table_check.specs.text.Saying.{set_said, rail_named, rail_set, good_said};

use board::Board;
use facts::{ByteSet, GoodSet, Kind};
use std::alloc::{AllocError, Global};
use texts::pair_of;

/// What follows a key.
pub(crate) fn after_key<'w, 'a>(key: &str, words: &'w [&'a str]) -> Option<&'w [&'a str]>
    ensures { option_map (λ r. map (λ w. w.now) r.now) result
        ≡ after_key key.now (map (λ w. w.now) words.now) }
{
    match words {
        [word, rest @ ..] if *word == key => Some(rest),
        _ => None,
    }
}

/// What follows a key and a name.
pub(crate) fn after_name<'w, 'a>(
    key: &str,
    name: &str,
    words: &'w [&'a str],
) -> Option<&'w [&'a str]>
    ensures { option_map (λ r. map (λ w. w.now) r.now) result
        ≡ after_name key.now name.now (map (λ w. w.now) words.now) }
{
    after_key(name, after_key(key, words)?)
}

/// The bytes of words, if they ascend.
fn ascending_bytes(alloc: Global, words: &[&str]) -> Result<Option<Vec<u8>>, AllocError>
    ensures { IfOk result (λ r. option_map (λ v. v.items) r
        ≡ ascending pair_of [] 0 (map (λ w. w.now) words.now)) }
{
    let mut bytes = Vec::with_capacity(alloc, words.len())?;
    let mut least = 0;
    for word in words {
        let Some(byte) = pair_of(word) else {
            return Ok(None);
        };
        if u16::from(byte) < least {
            return Ok(None);
        }
        bytes.push(byte)?;
        least = u16::from(byte) + 1;
    }
    Ok(Some(bytes))
}

/// The index of a rail.
#[tactic(auto, unfolding(crate::specs::text::Saying::rail_named))]
fn rail_named(board: &Board, name: &str) -> Option<u8>
    ensures { result ≡ rail_named board.now name.now }
{
    let index = board.rail_named(name)?;
    prove!(index < board.rails().len());
    Some(index as u8)
}

/// The indices of rails, if they ascend.
fn ascending_rails(
    alloc: Global,
    board: &Board,
    names: &[&str],
) -> Result<Option<Vec<u8>>, AllocError>
    ensures { IfOk result (λ r. option_map (λ v. v.items) r
        ≡ ascending (rail_named board.now) [] 0 (map (λ w. w.now) names.now)) }
{
    let mut rails = Vec::with_capacity(alloc, names.len())?;
    let mut least = 0;
    for name in names {
        let Some(rail) = rail_named(board, name) else {
            return Ok(None);
        };
        if u16::from(rail) < least {
            return Ok(None);
        }
        rails.push(rail)?;
        least = u16::from(rail) + 1;
    }
    Ok(Some(rails))
}

/// The set of a kind that words list.
#[tactic(auto, unfolding(crate::specs::text::Saying::byte_set))]
fn byte_set<K: Kind>(alloc: Global, words: &[&str]) -> Result<Option<ByteSet<K>>, AllocError>
    ensures { IfOk result (λ s. option_map (values_in K.is_value K.place) s
        ≡ byte_set K.is_value (map (λ w. w.now) words.now)) }
{
    match ascending_bytes(alloc, words)? {
        Some(values) => ByteSet::of(alloc, &values),
        None => Ok(None),
    }
}

#[tactic(auto, unfolding(crate::specs::text::Saying::rail_set))]
fn rail_set(alloc: Global, board: &Board, words: &[&str]) -> Result<Option<GoodSet>, AllocError>
    ensures { IfOk result (λ s. option_map rails_in s
        ≡ rail_set board.now (map (λ w. w.now) words.now)) }
{
    match ascending_rails(alloc, board, words)? {
        Some(rails) => GoodSet::of(alloc, &rails),
        None => Ok(None),
    }
}

/// The same, of at least one value.
fn some_bytes<K: Kind>(alloc: Global, words: &[&str]) -> Result<Option<ByteSet<K>>, AllocError>
    ensures { IfOk result (λ s. option_map (values_in K.is_value K.place) s
        ≡ some_bytes K.is_value (map (λ w. w.now) words.now)) }
{
    if words.is_empty() {
        return Ok(None);
    }
    byte_set(alloc, words)
}

/// What the target of an index may store, behind the key of its kind.
#[tactic(auto, unfolding(crate::specs::text::Saying::set_said))]
pub(crate) fn set_said<K: Kind>(
    alloc: Global,
    board: &Board,
    key: &str,
    index: usize,
    words: &[&str],
) -> Result<Option<ByteSet<K>>, AllocError>
    ensures { IfOk result (λ s. option_map (values_in K.is_value K.place) s
        ≡ set_said K.is_value key.now board.now index (map (λ w. w.now) words.now)) }
{
    let Some(name) = board.target_name(index) else {
        return Ok(None);
    };
    let Some(values) = after_name(key, name, words) else {
        return Ok(None);
    };
    some_bytes(alloc, values)
}

/// The rails that are good.
#[tactic(auto, unfolding(crate::specs::text::Saying::good_said))]
pub(crate) fn good_said(
    alloc: Global,
    board: &Board,
    words: &[&str],
) -> Result<Option<GoodSet>, AllocError>
    ensures { IfOk result (λ s. option_map rails_in s
        ≡ good_said board.now (map (λ w. w.now) words.now)) }
{
    let Some(names) = after_key("good", words) else {
        return Ok(None);
    };
    rail_set(alloc, board, names)
}
