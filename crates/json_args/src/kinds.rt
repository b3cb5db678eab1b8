//! The kinds of a JSON value.
ghost use Rattle.std.specs.Prelude.{◌≡◌, ◌≢◌, ℕ, List, IfOk, IfSome, IfNone, option_copied};
ghost use Rattle.base64.specs.Engines.{standard};
ghost use Rattle.base64.specs.GeneralPurpose.{encode_of, decoded_of, IsBytes};
ghost use Rattle.serde_json.specs.View.{view, items_view};
ghost use Rattle.json_args.specs.Kinds.{IsWhole, text_in, whole_in, flag_in, strings_in, texts_in};

use base64::DecodeAllocError;
use base64::engine::general_purpose::STANDARD;
use serde_json::Value;
use std::alloc::{AllocError, Global};
use tcf_values::{Bytes, Text, Texts};

/// The text of a string, and the empty text of `null`.
pub fn text_of(value: &Value) -> Option<&str>
    ensures { option_copied result ≡ text_in (view value.now) }
{
    if value.is_null() {
        Some("")
    } else {
        value.as_str()
    }
}

/// The whole number, if it fits a `u64` or an `i64`.
pub fn whole_of(value: &Value) -> Option<i128>
    ensures value { result ≡ whole_in (view value.now) }
    ensures range { IfSome result IsWhole }
{
    match value.as_u64() {
        Some(number) => Some(i128::from(number)),
        None => value.as_i64().map(i128::from),
    }
}

/// The boolean, and false of `null`.
pub fn flag_of(value: &Value) -> Option<bool>
    ensures { result ≡ flag_in (view value.now) }
{
    if value.is_null() {
        Some(false)
    } else {
        value.as_bool()
    }
}

/// The texts of the items, if each is a string.
#[tactic(auto, using(crate::proofs::Json::string_next, crate::proofs::Json::string_bad))]
fn strings_of(alloc: Global, items: &[Value]) -> Result<Option<Texts>, AllocError>
    ensures { IfOk result (λ texts. texts ≡ strings_in (items_view items.now)) }
{
    let mut texts = Texts::new(alloc);
    for item in items {
        match item.as_str() {
            Some(text) => texts.push(Text::from_str(alloc, text)?)?,
            None => return Ok(None),
        }
    }
    Ok(Some(texts))
}

/// The texts of an array of strings, and none of `null`.
pub fn texts_of(alloc: Global, value: &Value) -> Result<Option<Texts>, AllocError>
    ensures { IfOk result (λ texts. texts ≡ texts_in (view value.now)) }
{
    if value.is_null() {
        return Ok(Some(Texts::new(alloc)));
    }
    match value.as_array() {
        Some(items) => strings_of(alloc, items),
        None => Ok(None),
    }
}

/// The bytes of a text in padded standard base64, decoded from the text as it stands. None comes exactly where the
/// text isn't such.
#[tactic(auto, using(crate::proofs::Json::decoded_ok, crate::proofs::Json::decoded_err))]
pub fn bytes_in(alloc: Global, text: &str) -> Result<Option<Bytes>, AllocError>
    ensures value { IfOk result (λ found. found ≡ decoded_of standard text.now) }
    ensures encoded { IfOk result (λ found. IfSome found (λ bytes. text.now ≡ encode_of standard bytes)) }
    ensures none { IfOk result (λ found. IfNone found ((bytes : List ℕ) → IsBytes bytes → text.now ≢ encode_of standard bytes)) }
{
    match STANDARD.decode(alloc, text.as_bytes()) {
        Ok(bytes) => Ok(Some(Bytes::from_vec(bytes))),
        Err(DecodeAllocError::OutOfMemory) => Err(AllocError),
        Err(DecodeAllocError::DecodeError(_)) => Ok(None),
    }
}
