//! The results of answers, each read from a JSON value.
ghost use Rattle.std.specs.Prelude.{◌≡◌, IfOk, IfSome};
ghost use Rattle.serde_json.specs.View.{view};
ghost use Rattle.json_values.specs.Reports.{IsReport};
ghost use Rattle.reply_tables.specs.Answers.{error_in, result_in, capabilities_in};
ghost use Rattle.reply_tables.specs.Limits.{IsOfRow};
ghost use Rattle.reply_tables.specs.declared.rows.Row.{Row};

use crate::rows::Kind;
use json_values::{Json, blob_of, is_object, peers_of};
use serde_json::Value;
use std::alloc::{AllocError, Global};
use tcf_values::{Answer, BpProps, BpStatus, ContextData, ErrorReport, ProcessData, Texts};

/// The error of an answer: none inside where it is `null`, and none at all where the value is no report.
pub(crate) fn error_of(
    alloc: Global,
    value: &Value,
) -> Result<Option<Option<ErrorReport>>, AllocError>
    ensures value { IfOk result (λ found. found ≡ error_in (view value.now)) }
    ensures within { IfOk result (λ found. IfSome found (λ error. IfSome error IsReport)) }
{
    if value.is_null() {
        return Ok(Some(None));
    }
    Ok(ErrorReport::from_value(alloc, value)?.map(Some))
}

/// What breakpoints can do, which is read from any object.
fn capabilities_of(value: &Value) -> Option<Answer>
    ensures { result ≡ capabilities_in (view value.now) }
{
    if is_object(value) {
        Some(Answer::Capabilities)
    } else {
        None
    }
}

/// The result of the kind; none where the value is of another.
pub(crate) fn result_of(
    alloc: Global,
    kind: Kind,
    value: &Value,
) -> Result<Option<Answer>, AllocError>
    ensures value { IfOk result (λ found. found ≡ result_in kind (view value.now)) }
    ensures within { IfOk result (λ found. IfSome found (IsOfRow (Row.ErrorThen kind))) }
{
    match kind {
        Kind::Context => Ok(ContextData::from_value(alloc, value)?.map(Answer::Context)),
        Kind::Ids => Ok(Texts::from_value(alloc, value)?.map(Answer::Ids)),
        Kind::Process => Ok(ProcessData::from_value(alloc, value)?.map(Answer::Process)),
        Kind::Bp => Ok(BpProps::from_value(alloc, value)?.map(Answer::Bp)),
        Kind::Status => Ok(BpStatus::from_value(alloc, value)?.map(Answer::Status)),
        Kind::Capabilities => Ok(capabilities_of(value)),
        Kind::Blob => Ok(blob_of(alloc, value)?.map(Answer::Blob)),
        Kind::Peers => Ok(peers_of(alloc, value)?.map(Answer::Peers)),
        Kind::Count => Ok(u32::from_value(alloc, value)?.map(Answer::Count)),
    }
}
