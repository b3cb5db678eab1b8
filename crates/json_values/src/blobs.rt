//! Bytes, which are strings in padded standard base64.
ghost use Rattle.std.specs.Prelude.{◌≡◌, Some, IfOk, OnOk};
ghost use Rattle.base64.specs.Engines.{standard};
ghost use Rattle.base64.specs.GeneralPurpose.{decoded_of, encode_of};
ghost use Rattle.serde_json.specs.View.{view};
ghost use Rattle.json_values.specs.Plain.{blob_json};
ghost use Rattle.json_values.specs.Blobs.{blob_in};

use base64::engine::general_purpose::STANDARD;
use json_args::kinds::{bytes_in, text_of};
use serde_json::Value;
use std::alloc::{AllocError, Global};
use tcf_values::Bytes;

/// The bytes of a string in base64, and none of `null`; no bytes at all where the value is of another kind or the
/// string isn't such.
pub fn blob_of(alloc: Global, value: &Value) -> Result<Option<Bytes>, AllocError>
    ensures { IfOk result (λ found. found ≡ blob_in (view value.now)) }
{
    let Some(text) = text_of(value) else {
        return Ok(None);
    };
    bytes_in(alloc, text)
}

/// The string of these bytes in base64, which is read as them.
pub fn blob_value(alloc: Global, bytes: &[u8]) -> Result<Value, AllocError>
    ensures value { IfOk result (λ value. view value ≡ blob_json bytes.now) }
    ensures reads_back { OnOk result (decoded_of standard (encode_of standard bytes.now) ≡ Some bytes.now) }
{
    let text = STANDARD.encode(alloc, bytes)?;
    Ok(Value::String(text))
}
