//! What a cache says when it is asked, as a `cached` line shows it.
ghost use Rattle.std.specs.Prelude.{◌≡◌, ◌≤◌, ◌++◌, ◌∷◌, false, option_map, option_and_then, IfOk, OnOk, decimal};
ghost use Rattle.block_store.specs.Store.{covered};
ghost use Rattle.cached_lines.specs.Asked.{IsAsked};
ghost use Rattle.hex.specs.Hex.{encode_lower};
ghost use Rattle.json_values.specs.Contexts.{context_json};
ghost use Rattle.json_values.specs.Props.{bp_json};
ghost use Rattle.json_values.specs.States.{hits_json};
ghost use Rattle.json_values.specs.Statuses.{status_json};
ghost use Rattle.knowledge.specs.KnowledgeValue.{facts_of};
ghost use Rattle.serde_json.specs.Data.{string};
ghost use Rattle.serde_json.specs.View.{view};
ghost use Rattle.serde_json.specs.Written.{has_float};
ghost use Rattle.tcf_values.specs.Ids.{context_of, register_of};
ghost use Rattle.client_log.specs.Cached.{bytes_shown, json_shown, pc_text, running_word, shown_of, state_shown, state_text, suspended_word};

use cached_lines::CachedWhat;
use json_values::{bp_value, context_value, hits_value, status_value};
use knowledge::{Knowledge, StateFact};
use serde_json::Value;
use std::alloc::{AllocError, Global};
use tcf_outside::Octets;
use tcf_text::show_part;
use tcf_values::{ContextId, PC, RegisterId, Text, Texts, context_id, register_id};

/// Appends a value in JSON, without blanks but for those inside its texts, which are shown as `%20`.
fn show_json(alloc: Global, value: &Value, out: &mut Octets) -> Result<(), AllocError>
    requires { has_float (view value.now) ≡ false }
    ensures { OnOk result (out.new ≡ out.old ++ json_shown (view value.now)) }
{
    let text = value.to_string(alloc)?;
    show_part(text.as_bytes(), out)
}

/// A value in JSON, as it is shown.
fn json_text(alloc: Global, value: &Value) -> Result<Octets, AllocError>
    requires { has_float (view value.now) ≡ false }
    ensures { IfOk result (λ text. text ≡ json_shown (view value.now)) }
{
    let mut text = Octets::new(alloc);
    show_json(alloc, value, &mut text)?;
    Ok(text)
}

/// What is known of a context.
fn context_text(alloc: Global, cache: &Knowledge, id: &[u8]) -> Result<Option<Octets>, AllocError>
    ensures { IfOk result (λ text. text ≡ option_map (λ context. json_shown (context_json context)) ((facts_of cache.now).contexts id.now)) }
{
    match cache.context(id) {
        Some(context) => {
            let value = context_value(alloc, context)?;
            Ok(Some(json_text(alloc, &value)?))
        }
        None => Ok(None),
    }
}

/// Appends a number in decimal.
fn show_number(alloc: Global, number: u32, out: &mut Octets) -> Result<(), AllocError>
    ensures { OnOk result (out.new ≡ out.old ++ decimal number) }
{
    let text = format!(in alloc; "{number}")?;
    out.extend(text.as_bytes())
}

/// Appends a pc, `?` where it isn't known.
fn show_pc(alloc: Global, pc: Option<u32>, out: &mut Octets) -> Result<(), AllocError>
    ensures { OnOk result (out.new ≡ out.old ++ pc_text pc) }
{
    match pc {
        Some(pc) => show_number(alloc, pc, out),
        None => out.push(b'?'),
    }
}

#[tactic(auto, unfolding(crate::specs::Cached::running_word))]
fn show_running(out: &mut Octets) -> Result<(), AllocError>
    ensures { OnOk result (out.new ≡ out.old ++ running_word) }
{
    out.extend(b"running")
}

#[tactic(auto, unfolding(crate::specs::Cached::suspended_word))]
fn show_suspended(out: &mut Octets) -> Result<(), AllocError>
    ensures { OnOk result (out.new ≡ out.old ++ suspended_word) }
{
    out.extend(b"suspended")
}

/// Appends the reason and the object of a suspended thread, each behind a blank.
fn show_cause(
    alloc: Global,
    reason: &Text,
    hits: &Texts,
    out: &mut Octets,
) -> Result<(), AllocError>
    ensures { OnOk result (out.new ≡ out.old ++ 32 ∷ json_shown (string reason.now) ++ 32 ∷ json_shown (hits_json hits.now)) }
{
    let reason = Value::try_from_str(alloc, reason.as_str())?;
    let hits = hits_value(alloc, hits)?;
    out.push(b' ')?;
    show_json(alloc, &reason, out)?;
    out.push(b' ')?;
    show_json(alloc, &hits, out)
}

/// The state of a thread with this pc.
fn state_text(alloc: Global, pc: Option<u32>, state: &StateFact) -> Result<Octets, AllocError>
    ensures { IfOk result (λ text. text ≡ state_text pc state.now) }
{
    let mut text = Octets::new(alloc);
    match state {
        StateFact::Running => show_running(&mut text)?,
        StateFact::Suspended { reason, hits } => {
            show_suspended(&mut text)?;
            text.push(b' ')?;
            show_pc(alloc, pc, &mut text)?;
            show_cause(alloc, reason, hits, &mut text)?;
        }
    }
    Ok(text)
}

/// What is known of whether a thread runs. A process has no state.
fn thread_text(alloc: Global, cache: &Knowledge, id: &[u8]) -> Result<Option<Octets>, AllocError>
    ensures { IfOk result (λ text. text ≡ option_and_then (state_shown (facts_of cache.now)) (context_of id.now)) }
{
    let Some(ContextId::Thread(process, thread)) = context_id(id) else {
        return Ok(None);
    };
    let pc = cache.register(RegisterId {
        process,
        thread,
        index: PC,
    });
    match cache.state(id) {
        Some(state) => Ok(Some(state_text(alloc, pc, state)?)),
        None => Ok(None),
    }
}

/// What is known of a register, in decimal.
fn register_text(alloc: Global, cache: &Knowledge, id: &[u8]) -> Result<Option<Octets>, AllocError>
    ensures { IfOk result (λ text. text
        ≡ option_map decimal (option_and_then (λ r. (facts_of cache.now).registers r.process r.thread r.index) (register_of id.now))) }
{
    let Some(register) = register_id(id) else {
        return Ok(None);
    };
    match cache.register(register) {
        Some(value) => {
            let mut text = Octets::new(alloc);
            show_number(alloc, value, &mut text)?;
            Ok(Some(text))
        }
        None => Ok(None),
    }
}

/// What is known of the properties of a breakpoint.
fn properties_text(
    alloc: Global,
    cache: &Knowledge,
    id: &[u8],
) -> Result<Option<Octets>, AllocError>
    ensures { IfOk result (λ text. text ≡ option_map (λ properties. json_shown (bp_json properties)) ((facts_of cache.now).properties id.now)) }
{
    match cache.properties(id) {
        Some(properties) => {
            let value = bp_value(alloc, properties)?;
            Ok(Some(json_text(alloc, &value)?))
        }
        None => Ok(None),
    }
}

/// What is known of the status of a breakpoint.
fn status_text(alloc: Global, cache: &Knowledge, id: &[u8]) -> Result<Option<Octets>, AllocError>
    ensures { IfOk result (λ text. text ≡ option_map (λ status. json_shown (status_json status)) ((facts_of cache.now).statuses id.now)) }
{
    match cache.status(id) {
        Some(status) => {
            let value = status_value(alloc, status)?;
            Ok(Some(json_text(alloc, &value)?))
        }
        None => Ok(None),
    }
}

/// The bytes of a range of a process, two lower-case hexadecimal digits each, where one block has them all.
fn bytes_text(
    alloc: Global,
    cache: &Knowledge,
    id: &[u8],
    addr: u32,
    size: u32,
) -> Result<Option<Octets>, AllocError>
    requires { 1 ≤ size }
    ensures { IfOk result (λ text. text ≡ option_and_then (bytes_shown addr size cache.now.blocks) (context_of id.now)) }
{
    let Some(ContextId::Process(process)) = context_id(id) else {
        return Ok(None);
    };
    match cache.bytes(process, addr, size) {
        Some(bytes) => {
            let text = hex::encode(alloc, bytes)?;
            Ok(Some(Octets::from_slice(alloc, text.as_bytes())?))
        }
        None => Ok(None),
    }
}

/// What the cache has of what is asked, as it is shown; none where that isn't known. What is asked has a form.
pub(crate) fn cached_text(
    alloc: Global,
    cache: &Knowledge,
    what: &CachedWhat,
) -> Result<Option<Octets>, AllocError>
    requires { IsAsked what.now }
    ensures { IfOk result (λ text. text ≡ shown_of what.now (facts_of cache.now) cache.now.blocks) }
{
    match what {
        CachedWhat::Context { id } => context_text(alloc, cache, id.as_slice()),
        CachedWhat::State { id } => thread_text(alloc, cache, id.as_slice()),
        CachedWhat::Register { id } => register_text(alloc, cache, id.as_slice()),
        CachedWhat::Properties { id } => properties_text(alloc, cache, id.as_slice()),
        CachedWhat::Status { id } => status_text(alloc, cache, id.as_slice()),
        CachedWhat::Bytes { id, addr, size } => {
            bytes_text(alloc, cache, id.as_slice(), *addr, *size)
        }
    }
}
