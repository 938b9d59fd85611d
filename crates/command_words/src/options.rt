ghost use Rattle.std.specs.Prelude.{◌≡◌, ◌≤◌, ◌++◌, map, length, nat_lt, slice_index, string_bytes, IfOk, IfSome, OnOk};
ghost use Rattle.std.specs.Option.{option_map};
ghost use Rattle.command_words.specs.Requests.{is_option};
ghost use Rattle.command_words.specs.inside.Options as reading;
ghost use Rattle.command_words.specs.inside.Reading.{sorted_in};
ghost use Rattle.command_words.specs.inside.Views.{words_of, option_found, sorted_found};

use std::alloc::{AllocError, Global};

const WORKERS: &str = "--workers";

/// The most workers of a request.
const MOST_WORKERS: u32 = 64;

/// The words behind a command, by what they are.
#[derive(Drop)]
pub struct Sorted<'a> {
    /// The values of options.
    pub values: Vec<&'a str>,
    pub others: Vec<&'a str>,
}

/// The values of options and the other words, if each option is known and has a value.
#[tactic(auto, unfolding(crate::specs::inside::Reading::sorted_in))]
pub fn sort_words(alloc: Global, words: &[String]) -> Result<Option<Sorted<'_>>, AllocError>
    ensures { IfOk result (λ found. option_map sorted_found found ≡ sorted_in (map string_bytes words.now)) }
{
    let mut values = Vec::new(alloc);
    let mut others = Vec::new(alloc);
    let mut rest = words;
    while let Some((word, behind)) = rest.split_first() {
        if word.as_str() == "--" {
            push_words(&mut others, behind)?;
            return Ok(Some(Sorted { values, others }));
        }
        if is_option(word.as_bytes()) {
            let Some((value, behind_value)) = option_in(word.as_str(), behind) else {
                return Ok(None);
            };
            values.push(value)?;
            rest = behind_value;
        } else {
            others.push(word.as_str())?;
            rest = behind;
        }
    }
    Ok(Some(Sorted { values, others }))
}

/// Appends the words.
fn push_words<'a>(others: &mut Vec<&'a str>, words: &'a [String]) -> Result<(), AllocError>
    ensures { OnOk result
        (words_of others.new.items ≡ words_of others.old.items ++ map string_bytes words.now) }
{
    for word in words {
        others.push(word.as_str())?;
    }
    Ok(())
}

/// The value of the option that begins with a word, and the words behind it.
#[tactic(auto, unfolding(crate::specs::inside::Options::option_in))]
fn option_in<'a>(word: &'a str, behind: &'a [String]) -> Option<(&'a str, &'a [String])>
    ensures value { option_map option_found result ≡ reading.option_in word.now (map string_bytes behind.now) }
    ensures shorter { IfSome result (λ found. length found.1.now ≤ length behind.now) }
{
    if word == WORKERS {
        let (value, others) = behind.split_first()?;
        return Some((value.as_str(), others));
    }
    let value = joined_value(word)?;
    Some((value, behind))
}

/// What stands behind `--workers=` in a word.
fn joined_value(word: &str) -> Option<&str>
    ensures { option_map (λ value. value.now) result ≡ reading.joined_value word.now }
{
    word.strip_prefix("--workers=")
}

/// Whether the word begins with `-` and is longer.
fn is_option(word: &[u8]) -> bool
    ensures { result ≡ is_option word.now }
{
    match word {
        [first, _, ..] => *first == b'-',
        _ => false,
    }
}

/// The number of workers that the values of the options are.
#[tactic(auto, unfolding(crate::specs::inside::Options::workers_in))]
pub fn workers_in(values: &[&str]) -> Option<u32>
    ensures { result ≡ reading.workers_in (words_of values.now) }
{
    match values {
        [] => Some(1),
        [value] => number_in(value),
        _ => None,
    }
}

/// The number from 1 to 64 that the word is, in digits without sign or leading zero.
fn number_in(word: &str) -> Option<u32>
    ensures { result ≡ reading.number_in word.now }
{
    if !is_plain(word.as_bytes()) {
        return None;
    }
    let Ok(number) = word.parse::<u32>() else {
        return None;
    };
    if number > MOST_WORKERS {
        return None;
    }
    Some(number)
}

/// Whether the word begins with neither a sign nor `0`.
fn is_plain(word: &[u8]) -> bool
    ensures { result ≡ nat_lt 48 (slice_index word.now 0) }
{
    match word {
        [] => false,
        [first, ..] => *first > b'0',
    }
}
