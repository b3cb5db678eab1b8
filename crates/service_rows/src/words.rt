//! The words of a row, and the data that they spell.
use anyhow::{Context, Result};
use percent_encoding::percent_decode;
use std::alloc::{AllocError, Global};

/// The first word, and what stands behind the blank that ends it.
pub fn first(line: &str) -> (&str, &str) {
    line.split_once(' ').unwrap_or((line, ""))
}

/// What stands before a colon, and behind it.
pub fn two(line: &str) -> (&str, &str) {
    line.split_once(" :").unwrap_or((line, ""))
}

/// A number in decimal.
pub fn number(word: &str) -> Result<u64> {
    word.parse::<u64>().context("no number")
}

fn put_bytes(word: &str, out: &mut Vec<u8>) -> Result<(), AllocError> {
    if word != "-" {
        percent_decode(word.as_bytes()).append_to(out)?;
    }
    Ok(())
}

/// The bytes of a word.
pub fn bytes(alloc: Global, word: &str) -> Result<Vec<u8>, AllocError> {
    let mut bytes = Vec::new(alloc);
    put_bytes(word, &mut bytes)?;
    Ok(bytes)
}

/// The data of words: each is a part, with its zero but where it begins with `!`.
pub fn data(alloc: Global, words: &str) -> Result<Vec<u8>, AllocError> {
    let mut data = Vec::new(alloc);
    for word in words.split_whitespace() {
        match word.strip_prefix('!') {
            Some(rest) => put_bytes(rest, &mut data)?,
            None => {
                put_bytes(word, &mut data)?;
                data.push(0)?;
            }
        }
    }
    Ok(data)
}

/// A command or an event.
#[derive(Drop)]
pub struct Named {
    pub service: Vec<u8>,
    pub name: Vec<u8>,
    pub data: Vec<u8>,
}

impl Named {
    /// Reads a service, a name and data.
    pub fn read(alloc: Global, words: &str) -> Result<Named, AllocError> {
        let (service, words) = first(words);
        let (name, words) = first(words);
        Ok(Named {
            service: bytes(alloc, service)?,
            name: bytes(alloc, name)?,
            data: data(alloc, words)?,
        })
    }
}
