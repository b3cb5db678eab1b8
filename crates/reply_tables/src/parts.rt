//! The parts of the data of an answer or an event, read one after another.
ghost use Rattle.std.specs.Prelude.{◌≡◌, drop, option_map, IfOk, IfSome};
ghost use Rattle.serde_json.specs.View.{view};
ghost use Rattle.json_args.specs.Kinds.{text_in, flag_in};
ghost use Rattle.json_values.specs.States.{hits_in};
ghost use Rattle.reply_tables.specs.Parts.{json_at, part_in, ended_parts};

use json_args::kinds::{flag_of, text_of};
use json_args::readers::json;
use json_args::{Args, split};
use json_values::{Json, hits_of};
use serde_json::Value;
use std::alloc::{AllocError, Global};
use tcf_values::{Text, Texts};

/// The parts of a body. None comes exactly where the last part isn't ended.
pub(crate) fn parts_of(body: &[u8]) -> Option<Args<'_>>
    ensures { result ≡ ended_parts body.now }
{
    split(body).ok()
}

/// Takes the next part off, as a JSON value. None comes where there is no part, or it is no JSON.
pub(crate) fn next_value(alloc: Global, parts: &mut Args<'_>) -> Result<Option<Value>, AllocError>
    ensures value { IfOk result (λ found. option_map view found ≡ json_at parts.old 0) }
    ensures rest { parts.new ≡ drop 1 parts.old }
{
    match parts.take_first() {
        Some(part) => json(alloc, part),
        None => Ok(None),
    }
}

/// Takes the next part off, as a value of a kind.
pub(crate) fn next_of<T: Json>(alloc: Global, parts: &mut Args<'_>) -> Result<Option<T>, AllocError>
    ensures value { IfOk result (λ found. found ≡ part_in T.json_in parts.old 0) }
    ensures within { IfOk result (λ found. IfSome found T.IsWithin) }
    ensures rest { parts.new ≡ drop 1 parts.old }
{
    match next_value(alloc, parts)? {
        Some(value) => T::from_value(alloc, &value),
        None => Ok(None),
    }
}

/// Takes the next part off, as a text, which is empty where the part is `null`.
pub(crate) fn next_text(alloc: Global, parts: &mut Args<'_>) -> Result<Option<Text>, AllocError>
    ensures value { IfOk result (λ found. found ≡ part_in text_in parts.old 0) }
    ensures rest { parts.new ≡ drop 1 parts.old }
{
    let Some(value) = next_value(alloc, parts)? else {
        return Ok(None);
    };
    match text_of(&value) {
        Some(text) => Ok(Some(Text::from_str(alloc, text)?)),
        None => Ok(None),
    }
}

/// Takes the next part off, as a boolean, which is false where the part is `null`.
pub(crate) fn next_flag(alloc: Global, parts: &mut Args<'_>) -> Result<Option<bool>, AllocError>
    ensures value { IfOk result (λ found. found ≡ part_in flag_in parts.old 0) }
    ensures rest { parts.new ≡ drop 1 parts.old }
{
    match next_value(alloc, parts)? {
        Some(value) => Ok(flag_of(&value)),
        None => Ok(None),
    }
}

/// Takes the next part off, as the object that says which breakpoints were hit.
pub(crate) fn next_hits(alloc: Global, parts: &mut Args<'_>) -> Result<Option<Texts>, AllocError>
    ensures value { IfOk result (λ found. found ≡ part_in hits_in parts.old 0) }
    ensures rest { parts.new ≡ drop 1 parts.old }
{
    match next_value(alloc, parts)? {
        Some(value) => hits_of(alloc, &value),
        None => Ok(None),
    }
}
