//! The words of a run, of what C hands over.
ghost use Rattle.std.specs.Prelude.{◌≡◌, ◌∷◌, [], IfOk, codes};
ghost use Rattle.pyc_c.specs.Handed.{asked_words, level_word, mode_word, words_of};

use py_base::{List, Text};
use py_run::Words;
use std::alloc::{AllocError, Global};

/// The word of a mode. No mode has another number.
fn mode_word(mode: u32) -> &'static str
    ensures { result.now ≡ mode_word mode }
{
    match mode {
        0 => "exec",
        1 => "eval",
        2 => "single",
        3 => "block",
        _ => "",
    }
}

/// The word of a level. No level has another number.
fn level_word(level: u32) -> &'static str
    ensures { result.now ≡ level_word level }
{
    match level {
        0 => "0",
        1 => "1",
        2 => "2",
        _ => "",
    }
}

/// The words of a run, or none where the path is not UTF-8 or the output has another number.
///
/// # Errors
/// There is no memory for the words.
pub fn words_of(
    alloc: Global,
    output: u32,
    mode: u32,
    level: u32,
    path: &[u8],
) -> Result<Words, AllocError>
    ensures { IfOk result (λ words. words ≡ words_of output mode level path.now) }
{
    match str::from_utf8(path) {
        Ok(path) => asked_words(alloc, output, mode_word(mode), level_word(level), path),
        Err(_) => Ok(List::new(alloc)),
    }
}

fn asked_words(
    alloc: Global,
    output: u32,
    mode: &str,
    level: &str,
    path: &str,
) -> Result<Words, AllocError>
    ensures { IfOk result (λ words. words ≡ asked_words output mode.now level.now path.now) }
{
    match output {
        0 => listing_words(alloc, mode, level, path),
        1 => pack_words(alloc, mode, level, path),
        2 => unpack_words(alloc),
        3 => names_words(alloc, path),
        _ => Ok(List::new(alloc)),
    }
}

fn listing_words(alloc: Global, mode: &str, level: &str, path: &str) -> Result<Words, AllocError>
    ensures { IfOk result (λ words. words ≡ mode.now ∷ level.now ∷ path.now ∷ []) }
{
    let mut words = Vec::new(alloc);
    words.push(text_of(alloc, mode)?)?;
    words.push(text_of(alloc, level)?)?;
    words.push(text_of(alloc, path)?)?;
    Ok(List::from_vec(words))
}

fn pack_words(alloc: Global, mode: &str, level: &str, path: &str) -> Result<Words, AllocError>
    ensures { IfOk result (λ words. words ≡ codes "pack" ∷ mode.now ∷ level.now ∷ path.now ∷ []) }
{
    let mut words = Vec::new(alloc);
    words.push(text_of(alloc, "pack")?)?;
    words.push(text_of(alloc, mode)?)?;
    words.push(text_of(alloc, level)?)?;
    words.push(text_of(alloc, path)?)?;
    Ok(List::from_vec(words))
}

fn unpack_words(alloc: Global) -> Result<Words, AllocError>
    ensures { IfOk result (λ words. words ≡ codes "unpack" ∷ []) }
{
    let mut words = Vec::new(alloc);
    words.push(text_of(alloc, "unpack")?)?;
    Ok(List::from_vec(words))
}

fn names_words(alloc: Global, path: &str) -> Result<Words, AllocError>
    ensures { IfOk result (λ words. words ≡ codes "names" ∷ path.now ∷ []) }
{
    let mut words = Vec::new(alloc);
    words.push(text_of(alloc, "names")?)?;
    words.push(text_of(alloc, path)?)?;
    Ok(List::from_vec(words))
}

fn text_of(alloc: Global, word: &str) -> Result<Text, AllocError>
    ensures { IfOk result (λ text. text ≡ word.now) }
{
    Ok(Text::from_string(String::from_str(alloc, word)?))
}
