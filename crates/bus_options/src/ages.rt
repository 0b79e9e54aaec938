//! The ages that options write.
ghost use Rattle.std.specs.Prelude.{◌≡◌, ◌++◌, IfOk, OnOk, [], slice_index_or};
ghost use Rattle.std.specs.Option.{option_to_list};
ghost use Rattle.bus_options.specs.Ages as definition;
ghost use Rattle.bus_options.specs.Words.{words_of};

use crate::setting::{Age, age_of};
use std::alloc::{AllocError, Global};

/// The age that a word writes, or that and the next.
fn age_at(word: &str, next: &str) -> Option<Age>
    ensures { result ≡ definition.age_at word.now next.now }
{
    match word.split_once('=') {
        Some((name, value)) => {
            if name == "--age" {
                age_of(value).ok()
            } else {
                None
            }
        }
        None => {
            if word == "--age" {
                age_of(next).ok()
            } else {
                None
            }
        }
    }
}

/// The word at a place; an empty one behind the last.
fn word_at(words: &[String], place: usize) -> &str
    ensures { result.now ≡ slice_index_or (words_of words.now) place [] }
{
    match words.get(place) {
        Some(word) => word.as_str(),
        None => "",
    }
}

/// Puts an age behind others, where there is one.
fn put(ages: &mut Vec<Age>, age: Option<Age>) -> Result<(), AllocError>
    ensures { OnOk result (ages.new.items ≡ ages.old.items ++ option_to_list age) }
{
    if let Some(age) = age {
        ages.push(age)?;
    }
    Ok(())
}

/// The ages of a command line whose options [`line_of`](crate::line_of) gives, in their order.
pub fn ages_of(alloc: Global, words: &[String]) -> Result<Vec<Age>, AllocError>
    ensures { IfOk result (λ ages. ages.items ≡ definition.ages_in (words_of words.now)) }
{
    let mut ages = Vec::new(alloc);
    for place in 0..words.len() {
        let age = age_at(word_at(words, place), word_at(words, place + 1));
        put(&mut ages, age)?;
    }
    Ok(ages)
}
