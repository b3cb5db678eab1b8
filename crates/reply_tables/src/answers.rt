//! The answers, read.
ghost use Rattle.std.specs.Prelude.{◌≡◌, ◌∷◌, ℕ, List, drop, option_map, option_and_then, None, Ok, IfOk, IfSome};
ghost use Rattle.json_args.specs.Kinds.{json_of};
ghost use Rattle.json_values.specs.Reports.{IsReport};
ghost use Rattle.reply_tables.specs.Answers.{error_in, result_in, state_in, suspended_in, answer_in, in_parts, answer_of, answer_read, known_or_bad, IfKnown};
ghost use Rattle.reply_tables.specs.Limits.{IsOfRow, IsAnswerTo};
ghost use Rattle.reply_tables.specs.Parts.{ended_parts, part_in};

use crate::parts::{next_flag, next_hits, next_of, next_text, next_value, parts_of};
use crate::replies::ReadAnswer;
use crate::results::{error_of, result_of};
use crate::rows::{Kind, Row, row_of};
use json_args::Args;
use json_args::readers::json;
use std::alloc::{AllocError, Global};
use tcf_values::{Answer, Command, ErrorReport, RunState};

/// Takes the error of an answer off.
fn next_error(
    alloc: Global,
    parts: &mut Args<'_>,
) -> Result<Option<Option<ErrorReport>>, AllocError>
    ensures value { IfOk result (λ found. found ≡ part_in error_in parts.old 0) }
    ensures within { IfOk result (λ found. IfSome found (λ error. IfSome error IsReport)) }
    ensures rest { parts.new ≡ drop 1 parts.old }
{
    match next_value(alloc, parts)? {
        Some(value) => error_of(alloc, &value),
        None => Ok(None),
    }
}

/// Takes a result off.
fn next_result(
    alloc: Global,
    kind: Kind,
    parts: &mut Args<'_>,
) -> Result<Option<Answer>, AllocError>
    ensures value { IfOk result (λ found. found ≡ part_in (result_in kind) parts.old 0) }
    ensures within { IfOk result (λ found. IfSome found (IsOfRow (Row.ErrorThen kind))) }
{
    match next_value(alloc, parts)? {
        Some(value) => result_of(alloc, kind, &value),
        None => Ok(None),
    }
}

/// The answer of a row that has nothing but the error.
fn bare_answer(alloc: Global, parts: &mut Args<'_>) -> Result<Option<Answer>, AllocError>
    ensures value { IfOk result (λ found. found ≡ answer_in Row.ErrorAlone parts.old) }
    ensures within { IfOk result (λ found. IfSome found (IsOfRow Row.ErrorAlone)) }
{
    match next_error(alloc, parts)? {
        Some(Some(report)) => Ok(Some(Answer::Failed(report))),
        Some(None) => Ok(Some(Answer::Nothing)),
        None => Ok(None),
    }
}

/// The answer of a row that has a result behind the error.
fn result_answer(
    alloc: Global,
    kind: Kind,
    parts: &mut Args<'_>,
) -> Result<Option<Answer>, AllocError>
    ensures value { IfOk result (λ found. found ≡ answer_in (Row.ErrorThen kind) parts.old) }
    ensures within { IfOk result (λ found. IfSome found (IsOfRow (Row.ErrorThen kind))) }
{
    match next_error(alloc, parts)? {
        Some(Some(report)) => Ok(Some(Answer::Failed(report))),
        Some(None) => next_result(alloc, kind, parts),
        None => Ok(None),
    }
}

/// What stands behind the flag of a suspended thread.
fn suspended(alloc: Global, parts: &mut Args<'_>) -> Result<Option<RunState>, AllocError>
    ensures { (error flag : List ℕ) → IfOk result (λ found. found ≡ suspended_in (error ∷ flag ∷ parts.old)) }
{
    let Some(pc) = next_of::<u32>(alloc, parts)? else {
        return Ok(None);
    };
    let Some(reason) = next_text(alloc, parts)? else {
        return Ok(None);
    };
    let Some(hits) = next_hits(alloc, parts)? else {
        return Ok(None);
    };
    Ok(Some(RunState::Suspended { pc, reason, hits }))
}

/// The state behind the error. Of a running thread only the flag is read.
fn state(alloc: Global, parts: &mut Args<'_>) -> Result<Option<RunState>, AllocError>
    ensures { (error : List ℕ) → IfOk result (λ found. found ≡ state_in (error ∷ parts.old)) }
{
    match next_flag(alloc, parts)? {
        Some(true) => suspended(alloc, parts),
        Some(false) => Ok(Some(RunState::Running)),
        None => Ok(None),
    }
}

/// The answer of the row that has a state behind the error.
fn state_answer(alloc: Global, parts: &mut Args<'_>) -> Result<Option<Answer>, AllocError>
    ensures value { IfOk result (λ found. found ≡ answer_in Row.ErrorState parts.old) }
    ensures within { IfOk result (λ found. IfSome found (IsOfRow Row.ErrorState)) }
{
    match next_error(alloc, parts)? {
        Some(Some(report)) => Ok(Some(Answer::Failed(report))),
        Some(None) => Ok(state(alloc, parts)?.map(Answer::State)),
        None => Ok(None),
    }
}

/// The answer of the row that has bytes before the error. They are read last, since an error leaves them unread.
fn blob_answer(alloc: Global, parts: &mut Args<'_>) -> Result<Option<Answer>, AllocError>
    ensures value { IfOk result (λ found. found ≡ answer_in Row.BlobErrorNull parts.old) }
    ensures within { IfOk result (λ found. IfSome found (IsOfRow Row.BlobErrorNull)) }
{
    let bytes = parts.take_first();
    match next_error(alloc, parts)? {
        Some(Some(report)) => Ok(Some(Answer::Failed(report))),
        Some(None) => blob_of_part(alloc, bytes),
        None => Ok(None),
    }
}

/// The answer with the bytes of a part.
fn blob_of_part(alloc: Global, part: Option<&[u8]>) -> Result<Option<Answer>, AllocError>
    ensures value { IfOk result (λ found. found ≡ option_and_then (result_in Kind.Blob) (option_and_then json_of (option_map (λ p. p.now) part.entry))) }
    ensures within { IfOk result (λ found. IfSome found (IsOfRow Row.BlobErrorNull)) }
{
    let Some(part) = part else {
        return Ok(None);
    };
    match json(alloc, part)? {
        Some(value) => result_of(alloc, Kind::Blob, &value),
        None => Ok(None),
    }
}

/// The answer of a row, read from the parts of its data.
fn row_answer(alloc: Global, row: Row, parts: &mut Args<'_>) -> Result<Option<Answer>, AllocError>
    ensures value { IfOk result (λ found. found ≡ answer_in row parts.old) }
    ensures within { IfOk result (λ found. IfSome found (IsOfRow row)) }
{
    match row {
        Row::NoData | Row::ErrorAlone | Row::ErrorNull => bare_answer(alloc, parts),
        Row::ErrorThen(kind) => result_answer(alloc, kind, parts),
        Row::ErrorState => state_answer(alloc, parts),
        Row::BlobErrorNull => blob_answer(alloc, parts),
    }
}

/// The answer of a row, read from the parts of its data; none where the row doesn't read them.
fn answer_in_parts(alloc: Global, row: Row, body: &[u8]) -> Result<Option<Answer>, AllocError>
    ensures value { IfOk result (λ found. found ≡ in_parts row body.now) }
    ensures within { IfOk result (λ found. IfSome found (IsOfRow row)) }
    ensures unended { ended_parts body.now ≡ None → result ≡ Ok None }
{
    match parts_of(body) {
        Some(mut parts) => row_answer(alloc, row, &mut parts),
        None => Ok(None),
    }
}

/// The answer of a row, read from its data; none where the row doesn't read it.
fn answer_of_row(alloc: Global, row: Row, body: &[u8]) -> Result<Option<Answer>, AllocError>
    ensures value { IfOk result (λ found. found ≡ answer_of row body.now) }
    ensures within { IfOk result (λ found. IfSome found (IsOfRow row)) }
    ensures unended { ended_parts body.now ≡ None → result ≡ Ok None }
{
    match row {
        Row::NoData if body.is_empty() => Ok(Some(Answer::Nothing)),
        _ => answer_in_parts(alloc, row, body),
    }
}

/// Reads the data of an answer to the command. `Bad` comes exactly where the row of the command doesn't read it; that
/// of data that isn't ended comes whatever the memory.
pub fn read_answer(alloc: Global, command: &Command, body: &[u8]) -> Result<ReadAnswer, AllocError>
    ensures value { IfOk result (λ found. found ≡ known_or_bad (answer_read command.now body.now)) }
    ensures within { IfOk result (λ found. IfKnown found (IsAnswerTo command.now)) }
    ensures unended { ended_parts body.now ≡ None → result ≡ Ok ReadAnswer.Bad }
{
    match answer_of_row(alloc, row_of(command), body)? {
        Some(answer) => Ok(ReadAnswer::Known(answer)),
        None => Ok(ReadAnswer::Bad),
    }
}
