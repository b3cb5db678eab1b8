//! The parts of a body: a canonical part is the text of a value without blanks, and each part has a zero behind it.
ghost use Rattle.std.specs.Prelude.{◌≡◌, ◌≢◌, ◌≤◌, ◌++◌, ◌∷◌, ◌↔◌, [], ℕ, List, false, Some, None, slice_get, IfOk, IfErr, OnOk, OnErr, IsErrOf};
ghost use Rattle.base64.specs.Engines.{standard};
ghost use Rattle.base64.specs.GeneralPurpose.{decoded_of, encode_of};
ghost use Rattle.serde_json.specs.Data.{depth};
ghost use Rattle.serde_json.specs.Read.{max_depth};
ghost use Rattle.serde_json.specs.View.{view};
ghost use Rattle.serde_json.specs.Written.{compact_text, has_float};
ghost use Rattle.json_args.specs.Kinds.{json_of};
ghost use Rattle.json_args.specs.Parts.{Parts};
ghost use Rattle.json_values.specs.Kinds.{TextsLackZero, kind_at};
ghost use Rattle.json_values.specs.Plain.{blob_json};

use crate::canonical::Json;
use base64::engine::general_purpose::STANDARD;
use json_args::{ArgFault, Args, add_part};
use serde_json::Value;
use std::alloc::{AllocError, Global};
use tcf_values::Bytes;

/// Puts the canonical text of a value last, and its zero. A value that nests at most 127 deep reads back.
#[tactic(auto, using(crate::specs::TextLaws::text_lacks_zero, crate::proofs::Texts::text_reads))]
pub fn put_json(alloc: Global, value: &Value, out: &mut Bytes) -> Result<(), AllocError>
    requires { has_float (view value.now) ≡ false }
    ensures ok { OnOk result (out.new ≡ out.old ++ (compact_text (view value.now) ++ 0 ∷ [])) }
    ensures err { OnErr result (out.new ≡ out.old) }
    ensures parts { OnOk result ((parts : List (List ℕ)) → Parts parts out.old → Parts (parts ++ compact_text (view value.now) ∷ []) out.new) }
    ensures reads_back { OnOk result (depth (view value.now) ≤ max_depth → json_of (compact_text (view value.now)) ≡ Some (view value.now)) }
{
    let text = value.to_string(alloc)?;
    add_part(alloc, text.as_str().as_bytes(), out)
}

/// Puts the canonical part of a value of a kind last.
pub fn put<T: Json>(alloc: Global, item: &T, out: &mut Bytes) -> Result<(), AllocError>
    requires within { T.IsWithin item.now }
    requires shallow { T.nesting ≤ max_depth }
    ensures ok { OnOk result (out.new ≡ out.old ++ (compact_text (T.json item.now) ++ 0 ∷ [])) }
    ensures err { OnErr result (out.new ≡ out.old) }
    ensures parts { OnOk result ((parts : List (List ℕ)) → Parts parts out.old → Parts (parts ++ compact_text (T.json item.now) ∷ []) out.new) }
    ensures reads_back { OnOk result (json_of (compact_text (T.json item.now)) ≡ Some (T.json item.now)) }
{
    let value = item.to_value(alloc)?;
    put_json(alloc, &value, out)
}

/// Puts the canonical part of these bytes last: their padded standard base64, as a string.
#[tactic(auto, using(crate::proofs::Texts::decoded_back))]
pub fn put_blob(alloc: Global, bytes: &[u8], out: &mut Bytes) -> Result<(), AllocError>
    ensures ok { OnOk result (out.new ≡ out.old ++ (compact_text (blob_json bytes.now) ++ 0 ∷ [])) }
    ensures err { OnErr result (out.new ≡ out.old) }
    ensures parts { OnOk result ((parts : List (List ℕ)) → Parts parts out.old → Parts (parts ++ compact_text (blob_json bytes.now) ∷ []) out.new) }
    ensures reads_back { OnOk result (json_of (compact_text (blob_json bytes.now)) ≡ Some (blob_json bytes.now)) }
    ensures decodes { OnOk result (decoded_of standard (encode_of standard bytes.now) ≡ Some bytes.now) }
{
    let text = STANDARD.encode(alloc, bytes)?;
    put_json(alloc, &Value::String(text), out)
}

/// Puts the empty part last, which stands for `null`.
pub fn put_empty(alloc: Global, out: &mut Bytes) -> Result<(), AllocError>
    ensures ok { OnOk result (out.new ≡ out.old ++ 0 ∷ []) }
    ensures err { OnErr result (out.new ≡ out.old) }
    ensures parts { OnOk result ((parts : List (List ℕ)) → Parts parts out.old → Parts (parts ++ [] ∷ []) out.new) }
{
    add_part(alloc, b"", out)
}

/// Reads the part at the index, counted from 0, as a kind. `Missing` comes where there is no such part, `Syntax`
/// where it is no JSON text in UTF-8, and `Shape` where it is of another kind.
pub fn kind<T: Json>(alloc: Global, args: &Args<'_>, index: usize) -> Result<T, ArgFault>
    ensures ok { IfOk result (λ found. kind_at T.json_in args.now index ≡ Ok found) }
    ensures within { IfOk result T.IsWithin }
    ensures fault { IfErr result (λ fault. fault ≢ ArgFault.NoMemory → kind_at T.json_in args.now index ≡ Err fault) }
    ensures missing { IsErrOf result (ArgFault.Missing index) ↔ (slice_get args.now index ≡ None) }
{
    let value = json_args::value(alloc, args, index)?;
    match T::from_value(alloc, &value)? {
        Some(found) => Ok(found),
        None => Err(ArgFault::Shape { index }),
    }
}

/// The law that no canonical text has a zero byte.
pub fn texts_lack_zero()
    ensures { TextsLackZero }
{}
