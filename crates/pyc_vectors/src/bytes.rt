//! Bytes as lines spell them.

use py_base::{List, Text};
use std::alloc::{AllocError, Global};

/// The bytes that this input spells: the text after `text`, or after `hex` words of hexadecimal digits, with `*` and a
/// number after those that stand there so often. None where it is spelled otherwise.
pub fn bytes_of(alloc: Global, input: &str) -> Result<Option<List<u8>>, AllocError> {
    match input.split_once(' ') {
        Some(("text", text)) => {
            let bytes = Vec::from_slice(alloc, text.as_bytes())?;
            Ok(Some(List::from_vec(bytes)))
        }
        Some(("hex", words)) => repeated(alloc, words),
        _ => Ok(None),
    }
}

fn repeated(alloc: Global, words: &str) -> Result<Option<List<u8>>, AllocError> {
    let mut bytes = Vec::new(alloc);
    for word in words.split_whitespace() {
        let (digits, times) = word.split_once('*').unwrap_or((word, "1"));
        let (Ok(part), Ok(times)) = (hex::decode(alloc, digits), times.parse::<u32>()) else {
            return Ok(None);
        };
        for _ in 0..times {
            bytes.extend_from_slice(&part)?;
        }
    }
    Ok(Some(List::from_vec(bytes)))
}

/// The words of this line, with one space between two of them, and no word where it is empty.
pub fn words_of(alloc: Global, line: &str) -> Result<List<Text>, AllocError> {
    let mut words = Vec::new(alloc);
    if line.is_empty() {
        return Ok(List::from_vec(words));
    }
    for word in line.split(' ') {
        words.push(Text::from_string(String::from_str(alloc, word)?))?;
    }
    Ok(List::from_vec(words))
}

/// A buffer of this size.
pub fn room(alloc: Global, size: usize) -> Result<List<u8>, AllocError> {
    Ok(List::from_vec(vec![in alloc; 0u8; size]?))
}

/// Adds bytes that were written: the text that they are, which ends its line, or their hexadecimal digits where it is none or
/// has a 0.
pub fn push_written(alloc: Global, lines: &mut String, bytes: &[u8]) -> Result<(), AllocError> {
    match str::from_utf8(bytes) {
        Ok(text) if !text.contains('\0') => lines.push_str(text)?,
        _ => lines.push_str(hex::encode(alloc, bytes)?.as_str())?,
    }
    if lines.ends_with('\n') {
        return Ok(());
    }
    lines.push_str("\n")
}
