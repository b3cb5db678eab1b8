//! The events of the services, and what they are called.
ghost use Rattle.std.specs.Prelude.{◌≡◌};
ghost use Rattle.service_names.specs.Named.{named};
ghost use Rattle.service_names.specs.Events.{EventNamesAreExact, event_named as the_event_named, name_of, service_of, told_as, locator_events, run_control_events, breakpoints_events, memory_events, registers_events, processes_events};

use tcf_values::EventData;

/// An event by its service and its name; a variant is called as that of `EventData`.
#[derive(Clone, Copy, Debug, PartialEq, Eq)]
pub enum EventName {
    Hello,
    CtxAdded,
    CtxChanged,
    CtxRemoved,
    Suspended,
    Resumed,
    BpStatusIs,
    BpAdded,
    BpChanged,
    BpRemoved,
    MemChanged,
    RegChanged,
    RegsChanged,
    Exited,
}

impl EventName {
    /// The service that sends the event.
    pub fn service(self) -> &'static str
        ensures { result.now ≡ service_of self }
    {
        match self {
            EventName::Hello => "Locator",
            EventName::CtxAdded | EventName::CtxChanged | EventName::CtxRemoved => "RunControl",
            EventName::Suspended | EventName::Resumed => "RunControl",
            EventName::BpStatusIs | EventName::BpAdded => "Breakpoints",
            EventName::BpChanged | EventName::BpRemoved => "Breakpoints",
            EventName::MemChanged => "Memory",
            EventName::RegChanged | EventName::RegsChanged => "Registers",
            EventName::Exited => "Processes",
        }
    }

    /// The name in the service.
    pub fn name(self) -> &'static str
        ensures { result.now ≡ name_of self }
    {
        match self {
            EventName::Hello => "Hello",
            EventName::CtxAdded | EventName::BpAdded => "contextAdded",
            EventName::CtxChanged | EventName::BpChanged | EventName::RegsChanged =>
                "contextChanged",
            EventName::CtxRemoved | EventName::BpRemoved => "contextRemoved",
            EventName::Suspended => "contextSuspended",
            EventName::Resumed => "contextResumed",
            EventName::BpStatusIs => "status",
            EventName::MemChanged => "memoryChanged",
            EventName::RegChanged => "registerChanged",
            EventName::Exited => "exited",
        }
    }
}

/// The name of an event.
pub fn name_of_event(event: &EventData) -> EventName
    ensures { result ≡ told_as event.now }
{
    match event {
        EventData::Hello { .. } => EventName::Hello,
        EventData::CtxAdded { .. } => EventName::CtxAdded,
        EventData::CtxChanged { .. } => EventName::CtxChanged,
        EventData::CtxRemoved { .. } => EventName::CtxRemoved,
        EventData::Suspended { .. } => EventName::Suspended,
        EventData::Resumed { .. } => EventName::Resumed,
        EventData::BpStatusIs { .. } => EventName::BpStatusIs,
        EventData::BpAdded { .. } => EventName::BpAdded,
        EventData::BpChanged { .. } => EventName::BpChanged,
        EventData::BpRemoved { .. } => EventName::BpRemoved,
        EventData::MemChanged { .. } => EventName::MemChanged,
        EventData::RegChanged { .. } => EventName::RegChanged,
        EventData::RegsChanged => EventName::RegsChanged,
        EventData::Exited { .. } => EventName::Exited,
    }
}

fn run_control_event(name: &[u8]) -> Option<EventName>
    ensures { result ≡ named name_of run_control_events name.now }
{
    if name == b"contextAdded".as_slice() {
        Some(EventName::CtxAdded)
    } else if name == b"contextChanged".as_slice() {
        Some(EventName::CtxChanged)
    } else if name == b"contextRemoved".as_slice() {
        Some(EventName::CtxRemoved)
    } else if name == b"contextSuspended".as_slice() {
        Some(EventName::Suspended)
    } else if name == b"contextResumed".as_slice() {
        Some(EventName::Resumed)
    } else {
        None
    }
}

fn breakpoints_event(name: &[u8]) -> Option<EventName>
    ensures { result ≡ named name_of breakpoints_events name.now }
{
    if name == b"status".as_slice() {
        Some(EventName::BpStatusIs)
    } else if name == b"contextAdded".as_slice() {
        Some(EventName::BpAdded)
    } else if name == b"contextChanged".as_slice() {
        Some(EventName::BpChanged)
    } else if name == b"contextRemoved".as_slice() {
        Some(EventName::BpRemoved)
    } else {
        None
    }
}

fn registers_event(name: &[u8]) -> Option<EventName>
    ensures { result ≡ named name_of registers_events name.now }
{
    if name == b"registerChanged".as_slice() {
        Some(EventName::RegChanged)
    } else if name == b"contextChanged".as_slice() {
        Some(EventName::RegsChanged)
    } else {
        None
    }
}

fn locator_event(name: &[u8]) -> Option<EventName>
    ensures { result ≡ named name_of locator_events name.now }
{
    if name == b"Hello".as_slice() {
        Some(EventName::Hello)
    } else {
        None
    }
}

fn memory_event(name: &[u8]) -> Option<EventName>
    ensures { result ≡ named name_of memory_events name.now }
{
    if name == b"memoryChanged".as_slice() {
        Some(EventName::MemChanged)
    } else {
        None
    }
}

fn processes_event(name: &[u8]) -> Option<EventName>
    ensures { result ≡ named name_of processes_events name.now }
{
    if name == b"exited".as_slice() {
        Some(EventName::Exited)
    } else {
        None
    }
}

/// The event of this service and name. `None` comes exactly where the services have no such event.
pub fn event_named(service: &[u8], name: &[u8]) -> Option<EventName>
    ensures { result ≡ the_event_named service.now name.now }
{
    if service == b"Locator".as_slice() {
        locator_event(name)
    } else if service == b"RunControl".as_slice() {
        run_control_event(name)
    } else if service == b"Breakpoints".as_slice() {
        breakpoints_event(name)
    } else if service == b"Memory".as_slice() {
        memory_event(name)
    } else if service == b"Registers".as_slice() {
        registers_event(name)
    } else if service == b"Processes".as_slice() {
        processes_event(name)
    } else {
        None
    }
}

/// The law that a service and a name stand for an event exactly where they are the event's.
pub fn event_names_are_exact()
    ensures { EventNamesAreExact }
{}
