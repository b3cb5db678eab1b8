//! What RunControl tells of a process or a thread.
ghost use Rattle.std.specs.Prelude.{◌≡◌, ◌<◌, false, IfOk, IfSome, codes};
ghost use Rattle.serde_json.specs.Data.{string, boolean, member, no_members};
ghost use Rattle.serde_json.specs.View.{view, members_view};
ghost use Rattle.serde_json.specs.Written.{has_float};
ghost use Rattle.json_values.specs.Words.{word_json};
ghost use Rattle.json_values.specs.Contexts.{context_json, context_in, powers_in, IsContext, ArePowers};
ghost use Rattle.json_values.specs.ContextLaws.{context_back, context_plain, context_shallow};

use crate::canonical::Json;
use crate::fields::default_member;
use crate::members::{optional_member, put_member, put_some, required_member};
use serde_json::{Map, Value};
use std::alloc::{AllocError, Global};
use tcf_values::{ContextData, Text};

/// What a context is and can.
#[derive(Debug, Drop)]
pub struct Powers {
    pub container: bool,
    pub has_state: bool,
    pub can_suspend: bool,
    pub can_terminate: bool,
    pub can_resume: u32,
    pub can_count: u32,
}

/// The members that each context has.
fn fixed_members(alloc: Global, context: &ContextData) -> Result<Map<String, Value>, AllocError>
    ensures { IfOk result (λ members. members_view members.entries ≡
        member (codes "CanCount") (word_json context.now.can_count)
        (member (codes "CanResume") (word_json context.now.can_resume)
        (member (codes "CanSuspend") (boolean context.now.can_suspend)
        (member (codes "CanTerminate") (boolean context.now.can_terminate)
        (member (codes "HasState") (boolean context.now.has_state)
        (member (codes "ID") (string context.now.id)
        (member (codes "IsContainer") (boolean context.now.container)
        (member (codes "ProcessID") (string context.now.process) no_members)))))))) }
{
    let can_count = context.can_count;
    let can_resume = context.can_resume;
    let mut members = Map::new(alloc);
    put_member(alloc, &mut members, "CanCount", &can_count)?;
    put_member(alloc, &mut members, "CanResume", &can_resume)?;
    put_member(alloc, &mut members, "CanSuspend", &context.can_suspend)?;
    put_member(alloc, &mut members, "CanTerminate", &context.can_terminate)?;
    put_member(alloc, &mut members, "HasState", &context.has_state)?;
    put_member(alloc, &mut members, "ID", &context.id)?;
    put_member(alloc, &mut members, "IsContainer", &context.container)?;
    put_member(alloc, &mut members, "ProcessID", &context.process)?;
    Ok(members)
}

/// What the context of an object is and can.
fn powers_of(alloc: Global, value: &Value) -> Result<Option<Powers>, AllocError>
    ensures value { IfOk result (λ found. found ≡ powers_in (view value.now)) }
    ensures within { IfOk result (λ found. IfSome found ArePowers) }
{
    let Some(container) = default_member(alloc, value, "IsContainer", false)? else {
        return Ok(None);
    };
    let Some(has_state) = default_member(alloc, value, "HasState", false)? else {
        return Ok(None);
    };
    let Some(can_suspend) = default_member(alloc, value, "CanSuspend", false)? else {
        return Ok(None);
    };
    let Some(can_terminate) = default_member(alloc, value, "CanTerminate", false)? else {
        return Ok(None);
    };
    let Some(can_resume) = default_member(alloc, value, "CanResume", 0u32)? else {
        return Ok(None);
    };
    let Some(can_count) = default_member(alloc, value, "CanCount", 0u32)? else {
        return Ok(None);
    };
    Ok(Some(Powers {
        container,
        has_state,
        can_suspend,
        can_terminate,
        can_resume,
        can_count,
    }))
}

/// The object of a context. Both its numbers are of 32 bits, so it is within the limits of its kind.
#[tactic(auto, using(crate::proofs::Objects::optional_members, crate::specs::ContextLaws::context_plain))]
pub fn context_value(alloc: Global, context: &ContextData) -> Result<Value, AllocError>
    ensures value { IfOk result (λ value. view value ≡ context_json context.now) }
    ensures plain { has_float (context_json context.now) ≡ false }
{
    let mut members = fixed_members(alloc, context)?;
    put_some(alloc, &mut members, "Name", &context.name)?;
    put_some(alloc, &mut members, "ParentID", &context.parent)?;
    Ok(Value::Object(members))
}

impl Json for ContextData {
    ghost json = { context_json };

    ghost json_in = { context_in };

    ghost IsWithin = { IsContext };

    ghost nesting = { 1 };

    fn to_value(&self, alloc: Global) -> Result<Value, AllocError> {
        context_value(alloc, self)
    }

    fn from_value(alloc: Global, value: &Value) -> Result<Option<Self>, AllocError> {
        let Some(powers) = powers_of(alloc, value)? else {
            return Ok(None);
        };
        let Some(id) = required_member(alloc, value, "ID")? else {
            return Ok(None);
        };
        let Some(parent) = optional_member(alloc, value, "ParentID")? else {
            return Ok(None);
        };
        let Some(process) = default_member(alloc, value, "ProcessID", Text::from_str(alloc, "")?)?
        else {
            return Ok(None);
        };
        let Some(name) = optional_member(alloc, value, "Name")? else {
            return Ok(None);
        };
        Ok(Some(ContextData {
            id,
            parent,
            process,
            name,
            container: powers.container,
            has_state: powers.has_state,
            can_suspend: powers.can_suspend,
            can_terminate: powers.can_terminate,
            can_resume: powers.can_resume,
            can_count: powers.can_count,
        }))
    }

    ghost reads_back = { context_back };

    ghost plain = { context_plain };

    ghost shallow = { context_shallow };
}
