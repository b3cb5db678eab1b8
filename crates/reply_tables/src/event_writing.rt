//! The events, written.
ghost use Rattle.std.specs.Prelude.{◌≡◌, ◌≤◌, ◌++◌, ◌∷◌, [], Some, IfOk, OnOk};
ghost use Rattle.serde_json.specs.Read.{max_depth};
ghost use Rattle.reply_tables.specs.Events.{event_data, event_parts, event_read, IsEvent, IsTypedEvent};
ghost use Rattle.reply_tables.specs.Parts.{data_of, PartsRead};
ghost use Rattle.reply_tables.specs.declared.replies.ReadEvent.{ReadEvent};
ghost use Rattle.service_names.specs.Events.{name_of, service_of, told_as};
ghost use Rattle.tcf_values.specs.declared.event.EventData.{EventData};

use crate::replies::WrittenEvent;
use json_values::{Json, hits_value, put, put_json};
use service_names::name_of_event;
use std::alloc::{AllocError, Global};
use tcf_outside::Octets;
use tcf_values::{EventData, Text, Texts};

#[tactic(auto, using(crate::proofs::Bodies::part_then))]
fn put_suspended(
    alloc: Global,
    id: &Text,
    pc: &u32,
    reason: &Text,
    hits: &Texts,
    out: &mut Octets,
) -> Result<(), AllocError>
    ensures ok { OnOk result (out.new ≡ out.old ++ data_of (event_parts (EventData.Suspended id.now pc.now reason.now hits.now))) }
    ensures reads { OnOk result (PartsRead (event_parts (EventData.Suspended id.now pc.now reason.now hits.now))) }
    ensures typed { OnOk result (IsTypedEvent (EventData.Suspended id.now pc.now reason.now hits.now)) }
{
    let pc = *pc;
    let object = hits_value(alloc, hits)?;
    put(alloc, id, out)?;
    put(alloc, &pc, out)?;
    put(alloc, reason, out)?;
    put_json(alloc, &object, out)
}

/// Puts two arguments last.
#[tactic(auto, using(crate::proofs::Bodies::part_then))]
fn put_two<A: Json, B: Json>(
    alloc: Global,
    first: &A,
    second: &B,
    out: &mut Octets,
) -> Result<(), AllocError>
    requires first { A.IsWithin first.now }
    requires second { B.IsWithin second.now }
    requires first_shallow { A.nesting ≤ max_depth }
    requires second_shallow { B.nesting ≤ max_depth }
    ensures ok { OnOk result (out.new ≡ out.old ++ data_of (Some (A.json first.now) ∷ Some (B.json second.now) ∷ [])) }
    ensures reads { OnOk result (PartsRead (Some (A.json first.now) ∷ Some (B.json second.now) ∷ [])) }
{
    put(alloc, first, out)?;
    put(alloc, second, out)
}

/// Puts the arguments of an event last.
fn put_event(alloc: Global, event: &EventData, out: &mut Octets) -> Result<(), AllocError>
    requires { IsEvent event.now }
    ensures ok { OnOk result (out.new ≡ out.old ++ event_data event.now) }
    ensures reads { OnOk result (PartsRead (event_parts event.now)) }
    ensures typed { OnOk result (IsTypedEvent event.now) }
{
    match event {
        EventData::Hello { list } | EventData::CtxRemoved { list } => put(alloc, list, out),
        EventData::CtxAdded { list } | EventData::CtxChanged { list } => put(alloc, list, out),
        EventData::Suspended {
            id,
            pc,
            reason,
            hits,
        } => put_suspended(alloc, id, pc, reason, hits, out),
        EventData::Resumed { id } | EventData::RegChanged { id } => put(alloc, id, out),
        EventData::BpStatusIs { id, status } => put_two(alloc, id, status, out),
        EventData::BpAdded { list } | EventData::BpChanged { list } => put(alloc, list, out),
        EventData::BpRemoved { list } => put(alloc, list, out),
        EventData::MemChanged { id, list } => put_two(alloc, id, list, out),
        EventData::RegsChanged => Ok(()),
        EventData::Exited { id, code } => put_two(alloc, id, code, out),
    }
}

/// The names and the canonical data of an event.
#[tactic(auto, using(crate::proofs::EventBack::event_back))]
pub fn write_event(alloc: Global, event: &EventData) -> Result<WrittenEvent, AllocError>
    requires { IsEvent event.now }
    ensures service { IfOk result (λ written. written.service ≡ service_of (told_as event.now)) }
    ensures name { IfOk result (λ written. written.name ≡ name_of (told_as event.now)) }
    ensures body { IfOk result (λ written. written.body ≡ event_data event.now) }
    ensures reads_back { IfOk result (λ written. event_read written.service written.name written.body ≡ ReadEvent.Known event.now) }
{
    let mut body = Octets::new(alloc);
    put_event(alloc, event, &mut body)?;
    let name = name_of_event(event);
    Ok(WrittenEvent {
        service: Text::from_str(alloc, name.service())?,
        name: Text::from_str(alloc, name.name())?,
        body,
    })
}
