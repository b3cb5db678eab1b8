//! The answers, written.
ghost use Rattle.std.specs.Prelude.{◌≡◌, ◌≤◌, ◌++◌, ◌∷◌, [], false, Some, None, IfOk, OnOk, OnErr};
ghost use Rattle.serde_json.specs.Data.{depth, null};
ghost use Rattle.serde_json.specs.Read.{max_depth};
ghost use Rattle.serde_json.specs.View.{view};
ghost use Rattle.serde_json.specs.Written.{has_float};
ghost use Rattle.json_values.specs.Peers.{peers_json};
ghost use Rattle.json_values.specs.Plain.{blob_json};
ghost use Rattle.json_values.specs.Reports.{IsReport, report_json};
ghost use Rattle.json_values.specs.Words.{word_json};
ghost use Rattle.reply_tables.specs.Answers.{answer_read};
ghost use Rattle.reply_tables.specs.Limits.{IsOfRow, IsAnswerTo};
ghost use Rattle.reply_tables.specs.Parts.{data_of, PartsRead};
ghost use Rattle.tcf_values.specs.declared.answer.Answer.{Answer};
ghost use Rattle.reply_tables.specs.Written.{failed_parts, bare_parts, result_parts, state_parts, answer_parts, answer_data, capabilities_json, IsTyped, IsTypedState};

use crate::rows::{Row, row_of};
use json_values::{Json, blob_value, hits_value, peers_value, put, put_empty, put_json};
use serde_json::{Value, json};
use std::alloc::{AllocError, Global};
use tcf_outside::Octets;
use tcf_values::{Answer, Bytes, Command, ErrorReport, RunState, Text, Texts};

/// Puts `null` last, for a part that isn't read.
fn put_null(alloc: Global, out: &mut Octets) -> Result<(), AllocError>
    ensures ok { OnOk result (out.new ≡ out.old ++ data_of (Some null ∷ [])) }
    ensures reads { OnOk result (PartsRead (Some null ∷ [])) }
{
    put_json(alloc, &Value::Null, out)
}

/// Puts the parts of a failed answer last: the error in its place, and `null` in each other.
#[tactic(auto, using(crate::proofs::Bodies::part_then))]
pub(crate) fn put_failed(
    alloc: Global,
    row: Row,
    report: &ErrorReport,
    out: &mut Octets,
) -> Result<(), AllocError>
    requires { IsReport report.now }
    ensures ok { OnOk result (out.new ≡ out.old ++ data_of (failed_parts row (report_json report.now))) }
    ensures reads { OnOk result (PartsRead (failed_parts row (report_json report.now))) }
{
    match row {
        Row::NoData | Row::ErrorAlone => put(alloc, report, out),
        Row::ErrorNull | Row::ErrorThen(_) => {
            put(alloc, report, out)?;
            put_null(alloc, out)
        }
        Row::ErrorState => {
            put(alloc, report, out)?;
            put_null(alloc, out)?;
            put_null(alloc, out)?;
            put_null(alloc, out)?;
            put_null(alloc, out)
        }
        Row::BlobErrorNull => {
            put_null(alloc, out)?;
            put(alloc, report, out)?;
            put_null(alloc, out)
        }
    }
}

/// Puts the parts of an answer that has no result last.
#[tactic(auto, using(crate::proofs::Bodies::part_then))]
fn put_bare(alloc: Global, row: Row, out: &mut Octets) -> Result<(), AllocError>
    ensures ok { OnOk result (out.new ≡ out.old ++ data_of (bare_parts row)) }
    ensures reads { OnOk result (PartsRead (bare_parts row)) }
{
    match row {
        Row::ErrorAlone => put_empty(alloc, out),
        Row::ErrorNull => {
            put_empty(alloc, out)?;
            put_null(alloc, out)
        }
        _ => Ok(()),
    }
}

/// Puts the parts of an answer with this result last.
#[tactic(auto, using(crate::proofs::Bodies::part_then))]
fn put_value(alloc: Global, row: Row, value: &Value, out: &mut Octets) -> Result<(), AllocError>
    requires plain { has_float (view value.now) ≡ false }
    requires shallow { depth (view value.now) ≤ max_depth }
    ensures ok { OnOk result (out.new ≡ out.old ++ data_of (result_parts row (view value.now))) }
    ensures reads { OnOk result (PartsRead (result_parts row (view value.now))) }
{
    match row {
        Row::ErrorThen(_) => {
            put_empty(alloc, out)?;
            put_json(alloc, value, out)
        }
        Row::BlobErrorNull => {
            put_json(alloc, value, out)?;
            put_empty(alloc, out)?;
            put_null(alloc, out)
        }
        _ => Ok(()),
    }
}

/// Puts the parts of an answer with a result of a kind last.
fn put_result<T: Json>(
    alloc: Global,
    row: Row,
    item: &T,
    out: &mut Octets,
) -> Result<(), AllocError>
    requires within { T.IsWithin item.now }
    requires shallow { T.nesting ≤ max_depth }
    ensures ok { OnOk result (out.new ≡ out.old ++ data_of (result_parts row (T.json item.now))) }
    ensures reads { OnOk result (PartsRead (result_parts row (T.json item.now))) }
{
    let value = item.to_value(alloc)?;
    put_value(alloc, row, &value, out)
}

/// Puts the parts of an answer with a state last.
#[tactic(auto, using(crate::proofs::Bodies::part_then))]
fn put_state(alloc: Global, state: &RunState, out: &mut Octets) -> Result<(), AllocError>
    ensures ok { OnOk result (out.new ≡ out.old ++ data_of (None ∷ state_parts state.now)) }
    ensures reads { OnOk result (PartsRead (None ∷ state_parts state.now)) }
    ensures typed { OnOk result (IsTypedState state.now) }
{
    put_empty(alloc, out)?;
    match state {
        RunState::Running => {
            put(alloc, &false, out)?;
            put_null(alloc, out)?;
            put_null(alloc, out)?;
            put_null(alloc, out)
        }
        RunState::Suspended { pc, reason, hits } => {
            let pc = *pc;
            let object = hits_value(alloc, hits)?;
            put(alloc, &true, out)?;
            put(alloc, &pc, out)?;
            put(alloc, reason, out)?;
            put_json(alloc, &object, out)
        }
    }
}

/// The object of what breakpoints can do.
fn capabilities_value(alloc: Global) -> Result<Value, AllocError>
    ensures { IfOk result (λ value. view value ≡ capabilities_json) }
{
    json!(in alloc; {"ContextIds": true, "IgnoreCount": true, "Location": true})
}

/// Puts the parts of what breakpoints can do last.
fn put_capabilities(alloc: Global, row: Row, out: &mut Octets) -> Result<(), AllocError>
    ensures ok { OnOk result (out.new ≡ out.old ++ data_of (result_parts row capabilities_json)) }
    ensures reads { OnOk result (PartsRead (result_parts row capabilities_json)) }
{
    let value = capabilities_value(alloc)?;
    put_value(alloc, row, &value, out)
}

/// Puts the parts of an answer with bytes last.
fn put_bytes(alloc: Global, row: Row, bytes: &Bytes, out: &mut Octets) -> Result<(), AllocError>
    ensures ok { OnOk result (out.new ≡ out.old ++ data_of (result_parts row (blob_json bytes.now))) }
    ensures reads { OnOk result (PartsRead (result_parts row (blob_json bytes.now))) }
    ensures typed { OnOk result (IsTyped (Answer.Blob bytes.now)) }
{
    let value = blob_value(alloc, bytes.as_slice())?;
    put_value(alloc, row, &value, out)
}

/// Puts the parts of an answer with peers last.
fn put_peers(alloc: Global, row: Row, ids: &Texts, out: &mut Octets) -> Result<(), AllocError>
    ensures ok { OnOk result (out.new ≡ out.old ++ data_of (result_parts row (peers_json ids.now))) }
    ensures reads { OnOk result (PartsRead (result_parts row (peers_json ids.now))) }
{
    let value = peers_value(alloc, ids)?;
    put_value(alloc, row, &value, out)
}

/// Puts the parts of an answer with a count last.
fn put_count(alloc: Global, row: Row, count: &u32, out: &mut Octets) -> Result<(), AllocError>
    ensures ok { OnOk result (out.new ≡ out.old ++ data_of (result_parts row (word_json count.now))) }
    ensures reads { OnOk result (PartsRead (result_parts row (word_json count.now))) }
    ensures typed { OnOk result (IsTyped (Answer.Count count.now)) }
{
    let count = *count;
    put_result(alloc, row, &count, out)
}

/// Puts the parts of an answer of the row last.
fn put_answer(alloc: Global, row: Row, answer: &Answer, out: &mut Octets) -> Result<(), AllocError>
    requires { IsOfRow row answer.now }
    ensures ok { OnOk result (out.new ≡ out.old ++ data_of (answer_parts row answer.now)) }
    ensures reads { OnOk result (PartsRead (answer_parts row answer.now)) }
    ensures typed { OnOk result (IsTyped answer.now) }
{
    match answer {
        Answer::Failed(report) => put_failed(alloc, row, report, out),
        Answer::Nothing => put_bare(alloc, row, out),
        Answer::Context(context) => put_result(alloc, row, context, out),
        Answer::Ids(ids) => put_result(alloc, row, ids, out),
        Answer::State(state) => put_state(alloc, state, out),
        Answer::Process(process) => put_result(alloc, row, process, out),
        Answer::Bp(props) => put_result(alloc, row, props, out),
        Answer::Status(status) => put_result(alloc, row, status, out),
        Answer::Capabilities => put_capabilities(alloc, row, out),
        Answer::Blob(bytes) => put_bytes(alloc, row, bytes, out),
        Answer::Peers(ids) => put_peers(alloc, row, ids, out),
        Answer::Count(count) => put_count(alloc, row, count, out),
    }
}

/// Puts the canonical data of an answer to the command last. After want of memory nothing was put.
#[tactic(auto, using(crate::proofs::ReadBack::answer_back))]
pub fn write_answer(
    alloc: Global,
    command: &Command,
    answer: &Answer,
    out: &mut Octets,
) -> Result<(), AllocError>
    requires { IsAnswerTo command.now answer.now }
    ensures ok { OnOk result (out.new ≡ out.old ++ answer_data command.now answer.now) }
    ensures err { OnErr result (out.new ≡ out.old) }
    ensures reads_back { OnOk result (answer_read command.now (answer_data command.now answer.now) ≡ Some answer.now) }
{
    let mut data = Octets::new(alloc);
    put_answer(alloc, row_of(command), answer, &mut data)?;
    out.extend(data.as_slice())
}
