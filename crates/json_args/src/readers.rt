//! The readers of one argument. Each takes the allocator, the arguments and an index, counted from 0.
//!
//! Every reader answers `Missing` where there is no such part, `Syntax` where the part is no JSON text in UTF-8, and
//! `Shape` where it is JSON of another kind. An empty part is `null`.
ghost use Rattle.std.specs.Prelude.{◌≡◌, ◌≢◌, ◌↔◌, ℕ, List, slice_get, option_map, IfOk, IfErr, IsErrOf};
ghost use Rattle.base64.specs.Engines.{standard};
ghost use Rattle.base64.specs.GeneralPurpose.{encode_of, IsBytes};
ghost use Rattle.serde_json.specs.View.{view};
ghost use Rattle.json_args.specs.Kinds.{IsWhole, json_of, value_at, text_at, whole_at, flag_at, texts_at, blob_at};

use crate::fault::ArgFault;
use crate::kinds::{bytes_in, flag_of, text_of, texts_of, whole_of};
use crate::parts::Args;
use crate::plain::{plain_number, plain_string};
use serde_json::Value;
use std::alloc::{AllocError, Global};
use tcf_values::{Bytes, Text, Texts};

/// The JSON value of a part, which is `null` where the part is empty. None comes exactly where the part is no JSON
/// text in UTF-8.
#[tactic(auto, using(crate::proofs::Json::json_empty, crate::proofs::Json::json_read, crate::proofs::Json::json_refused))]
pub fn json(alloc: Global, part: &[u8]) -> Result<Option<Value>, AllocError>
    ensures { IfOk result (λ found. option_map view found ≡ json_of part.now) }
{
    if part.is_empty() {
        return Ok(Some(Value::Null));
    }
    if let Some(number) = plain_number(part) {
        return Ok(Some(Value::from(number)));
    }
    if let Some(text) = plain_string(part) {
        return Ok(Some(Value::String(String::from_str(alloc, text)?)));
    }
    match Value::from_slice(alloc, part) {
        Ok(value) => Ok(Some(value)),
        Err(error) if error.is_memory() => Err(AllocError),
        Err(_) => Ok(None),
    }
}

/// Reads any JSON value.
pub fn value(alloc: Global, args: &Args<'_>, index: usize) -> Result<Value, ArgFault>
    ensures ok { IfOk result (λ value. value_at args.now index ≡ Ok (view value)) }
    ensures fault { IfErr result (λ fault. fault ≢ ArgFault.NoMemory → value_at args.now index ≡ Err fault) }
    ensures missing { IsErrOf result (ArgFault.Missing index) ↔ (slice_get args.now index ≡ None) }
{
    match args.get(index) {
        Some(part) => json(alloc, part)?.ok_or(ArgFault::Syntax { index }),
        None => Err(ArgFault::Missing { index }),
    }
}

/// Reads a string; `null` is the empty text.
pub fn text(alloc: Global, args: &Args<'_>, index: usize) -> Result<Text, ArgFault>
    ensures ok { IfOk result (λ text. text_at args.now index ≡ Ok text) }
    ensures fault { IfErr result (λ fault. fault ≢ ArgFault.NoMemory → text_at args.now index ≡ Err fault) }
    ensures missing { IsErrOf result (ArgFault.Missing index) ↔ (slice_get args.now index ≡ None) }
{
    let found = value(alloc, args, index)?;
    match text_of(&found) {
        Some(text) => Ok(Text::from_str(alloc, text)?),
        None => Err(ArgFault::Shape { index }),
    }
}

/// Reads a whole number from -2^63 to 2^64 - 1, written without a point or an exponent; `null` is none.
pub fn whole(alloc: Global, args: &Args<'_>, index: usize) -> Result<i128, ArgFault>
    ensures ok { IfOk result (λ number. whole_at args.now index ≡ Ok number) }
    ensures range { IfOk result IsWhole }
    ensures fault { IfErr result (λ fault. fault ≢ ArgFault.NoMemory → whole_at args.now index ≡ Err fault) }
    ensures missing { IsErrOf result (ArgFault.Missing index) ↔ (slice_get args.now index ≡ None) }
{
    let found = value(alloc, args, index)?;
    whole_of(&found).ok_or(ArgFault::Shape { index })
}

/// Reads a boolean; `null` is false.
pub fn flag(alloc: Global, args: &Args<'_>, index: usize) -> Result<bool, ArgFault>
    ensures ok { IfOk result (λ flag. flag_at args.now index ≡ Ok flag) }
    ensures fault { IfErr result (λ fault. fault ≢ ArgFault.NoMemory → flag_at args.now index ≡ Err fault) }
    ensures missing { IsErrOf result (ArgFault.Missing index) ↔ (slice_get args.now index ≡ None) }
{
    let found = value(alloc, args, index)?;
    flag_of(&found).ok_or(ArgFault::Shape { index })
}

/// Reads an array of strings; `null` is none of them. An item that is `null` is of another kind.
pub fn texts(alloc: Global, args: &Args<'_>, index: usize) -> Result<Texts, ArgFault>
    ensures ok { IfOk result (λ texts. texts_at args.now index ≡ Ok texts) }
    ensures fault { IfErr result (λ fault. fault ≢ ArgFault.NoMemory → texts_at args.now index ≡ Err fault) }
    ensures missing { IsErrOf result (ArgFault.Missing index) ↔ (slice_get args.now index ≡ None) }
{
    let found = value(alloc, args, index)?;
    match texts_of(alloc, &found)? {
        Some(texts) => Ok(texts),
        None => Err(ArgFault::Shape { index }),
    }
}

/// Reads bytes from a string in padded standard base64; `null` is no bytes. `Base64` comes where the text isn't
/// such: also where it has blanks or line breaks, lacks its padding, or has spare bits that aren't zero.
pub fn blob(alloc: Global, args: &Args<'_>, index: usize) -> Result<Bytes, ArgFault>
    ensures ok { IfOk result (λ bytes. blob_at args.now index ≡ Ok bytes) }
    ensures fault { IfErr result (λ fault. fault ≢ ArgFault.NoMemory → blob_at args.now index ≡ Err fault) }
    ensures missing { IsErrOf result (ArgFault.Missing index) ↔ (slice_get args.now index ≡ None) }
    ensures encoded { IfOk result (λ bytes. text_at args.now index ≡ Ok (encode_of standard bytes)) }
    ensures base64 { IsErrOf result (ArgFault.Base64 index) → (bytes : List ℕ) → IsBytes bytes → text_at args.now index ≢ Ok (encode_of standard bytes) }
{
    let found = value(alloc, args, index)?;
    let Some(text) = text_of(&found) else {
        return Err(ArgFault::Shape { index });
    };
    bytes_in(alloc, text)?.ok_or(ArgFault::Base64 { index })
}
