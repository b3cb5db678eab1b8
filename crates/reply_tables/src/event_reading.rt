//! The events, read.
ghost use Rattle.std.specs.Prelude.{◌≡◌, None, Ok, IfOk, IfSome, IsOk};
ghost use Rattle.service_names.specs.Events.{event_named};
ghost use Rattle.reply_tables.specs.Events.{event_in, suspended_event, status_event, memory_event, exited_event, event_read, IsEvent, IfKnown};
ghost use Rattle.reply_tables.specs.Parts.{ended_parts};

use crate::parts::{next_hits, next_of, next_text, parts_of};
use crate::replies::ReadEvent;
use json_args::Args;
use json_values::Json;
use service_names::{EventName, event_named};
use std::alloc::{AllocError, Global};
use tcf_values::{EventData, Texts};

fn suspended(alloc: Global, parts: &mut Args<'_>) -> Result<Option<EventData>, AllocError>
    ensures value { IfOk result (λ found. found ≡ suspended_event parts.old) }
    ensures within { IfOk result (λ found. IfSome found IsEvent) }
{
    let Some(id) = next_text(alloc, parts)? else {
        return Ok(None);
    };
    let Some(pc) = next_of::<u32>(alloc, parts)? else {
        return Ok(None);
    };
    let Some(reason) = next_text(alloc, parts)? else {
        return Ok(None);
    };
    let Some(hits) = next_hits(alloc, parts)? else {
        return Ok(None);
    };
    Ok(Some(EventData::Suspended {
        id,
        pc,
        reason,
        hits,
    }))
}

fn status(alloc: Global, parts: &mut Args<'_>) -> Result<Option<EventData>, AllocError>
    ensures value { IfOk result (λ found. found ≡ status_event parts.old) }
    ensures within { IfOk result (λ found. IfSome found IsEvent) }
{
    let Some(id) = next_text(alloc, parts)? else {
        return Ok(None);
    };
    match next_of(alloc, parts)? {
        Some(status) => Ok(Some(EventData::BpStatusIs { id, status })),
        None => Ok(None),
    }
}

fn memory(alloc: Global, parts: &mut Args<'_>) -> Result<Option<EventData>, AllocError>
    ensures value { IfOk result (λ found. found ≡ memory_event parts.old) }
    ensures within { IfOk result (λ found. IfSome found IsEvent) }
{
    let Some(id) = next_text(alloc, parts)? else {
        return Ok(None);
    };
    match next_of(alloc, parts)? {
        Some(list) => Ok(Some(EventData::MemChanged { id, list })),
        None => Ok(None),
    }
}

fn exited(alloc: Global, parts: &mut Args<'_>) -> Result<Option<EventData>, AllocError>
    ensures value { IfOk result (λ found. found ≡ exited_event parts.old) }
    ensures within { IfOk result (λ found. IfSome found IsEvent) }
{
    let Some(id) = next_text(alloc, parts)? else {
        return Ok(None);
    };
    match next_of(alloc, parts)? {
        Some(code) => Ok(Some(EventData::Exited { id, code })),
        None => Ok(None),
    }
}

/// The event of this name, read from its arguments.
fn event_of(
    alloc: Global,
    event: EventName,
    parts: &mut Args<'_>,
) -> Result<Option<EventData>, AllocError>
    ensures value { IfOk result (λ found. found ≡ event_in event parts.old) }
    ensures within { IfOk result (λ found. IfSome found IsEvent) }
{
    match event {
        EventName::Hello => Ok(next_of(alloc, parts)?.map(|list| EventData::Hello { list })),
        EventName::CtxAdded => Ok(next_of(alloc, parts)?.map(|list| EventData::CtxAdded { list })),
        EventName::CtxChanged => Ok(next_of(alloc, parts)?.map(|list| EventData::CtxChanged {
            list,
        })),
        EventName::CtxRemoved => Ok(next_of(alloc, parts)?.map(|list| EventData::CtxRemoved {
            list,
        })),
        EventName::Suspended => suspended(alloc, parts),
        EventName::Resumed => Ok(next_text(alloc, parts)?.map(|id| EventData::Resumed { id })),
        EventName::BpStatusIs => status(alloc, parts),
        EventName::BpAdded => Ok(next_of(alloc, parts)?.map(|list| EventData::BpAdded { list })),
        EventName::BpChanged => Ok(next_of(alloc, parts)?.map(|list| EventData::BpChanged {
            list,
        })),
        EventName::BpRemoved => Ok(next_of(alloc, parts)?.map(|list| EventData::BpRemoved {
            list,
        })),
        EventName::MemChanged => memory(alloc, parts),
        EventName::RegChanged => Ok(next_text(alloc, parts)?.map(|id| EventData::RegChanged {
            id,
        })),
        EventName::RegsChanged => Ok(Some(EventData::RegsChanged)),
        EventName::Exited => exited(alloc, parts),
    }
}

/// Reads an event. `Foreign` comes exactly where the services have no event of these names, and `Bad` exactly where
/// they have one that doesn't read the data. `Foreign`, and `Bad` for data that isn't ended, come whatever the memory.
pub fn read_event(
    alloc: Global,
    service: &[u8],
    name: &[u8],
    body: &[u8],
) -> Result<ReadEvent, AllocError>
    ensures value { IfOk result (λ found. found ≡ event_read service.now name.now body.now) }
    ensures within { IfOk result (λ found. IfKnown found IsEvent) }
    ensures foreign { event_named service.now name.now ≡ None → result ≡ Ok ReadEvent.Foreign }
    ensures unended { ended_parts body.now ≡ None → IsOk result }
{
    let Some(event) = event_named(service, name) else {
        return Ok(ReadEvent::Foreign);
    };
    let Some(mut parts) = parts_of(body) else {
        return Ok(ReadEvent::Bad);
    };
    match event_of(alloc, event, &mut parts)? {
        Some(event) => Ok(ReadEvent::Known(event)),
        None => Ok(ReadEvent::Bad),
    }
}
