//! The rows of one part of data, read as its kind.
use crate::tables::put_text;
use crate::words::{data, first, number};
use anyhow::Result;
use json_args::{ArgFault, Args, blob, flag, split, text, texts, value, whole};
use json_values::kind;
use std::alloc::Global;
use tcf_outside::Octets;

fn text_in(alloc: Global, args: &Args<'_>, index: usize) -> Result<String, ArgFault> {
    let text = text(alloc, args, index)?;
    Ok(String::from_str(alloc, text.as_str())?)
}

fn whole_in(alloc: Global, args: &Args<'_>, index: usize) -> Result<String, ArgFault> {
    let number = whole(alloc, args, index)?;
    Ok(format!(in alloc; "{number}")?)
}

fn kind_in(alloc: Global, args: &Args<'_>, index: usize) -> Result<String, ArgFault> {
    let number = kind::<i128>(alloc, args, index)?;
    Ok(format!(in alloc; "{number}")?)
}

fn flag_in(alloc: Global, args: &Args<'_>, index: usize) -> Result<String, ArgFault> {
    let flag = flag(alloc, args, index)?;
    Ok(format!(in alloc; "{flag}")?)
}

fn texts_in(alloc: Global, args: &Args<'_>, index: usize) -> Result<String, ArgFault> {
    let count = texts(alloc, args, index)?.len();
    Ok(format!(in alloc; "{count}")?)
}

fn blob_in(alloc: Global, args: &Args<'_>, index: usize) -> Result<String, ArgFault> {
    let bytes = blob(alloc, args, index)?;
    Ok(hex::encode(alloc, bytes.as_slice())?)
}

fn value_in(alloc: Global, args: &Args<'_>, index: usize) -> Result<String, ArgFault> {
    let value = value(alloc, args, index)?;
    Ok(value.to_string(alloc)?)
}

/// The part of this index, as a reader of a kind reads it.
fn read(alloc: Global, reader: &str, args: &Args<'_>, index: usize) -> Result<String, ArgFault> {
    match reader {
        "text" => text_in(alloc, args, index),
        "whole" => whole_in(alloc, args, index),
        "number" => kind_in(alloc, args, index),
        "flag" => flag_in(alloc, args, index),
        "texts" => texts_in(alloc, args, index),
        "blob" => blob_in(alloc, args, index),
        _ => value_in(alloc, args, index),
    }
}

/// Puts what a part is read as, or why it isn't.
pub fn put_part(alloc: Global, words: &str, out: &mut Octets) -> Result<()> {
    let (reader, words) = first(words);
    let (index, words) = first(words);
    let index = number(index)? as usize;
    let data = data(alloc, words)?;
    let read = match split(data.as_slice()) {
        Ok(args) => read(alloc, reader, &args, index),
        Err(fault) => Err(fault),
    };
    match read {
        Ok(text) => put_text(text.as_str(), out),
        Err(fault) => put_text(format!(in alloc; "{fault:?}")?.as_str(), out),
    }
}
