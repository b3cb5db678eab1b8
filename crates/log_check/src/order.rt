//! Whether what the client received is what the target told, in order.
ghost use Rattle.std.specs.Prelude.{◌≡◌, ◌↔◌, ◌∷◌, [], ◌||◌, ◌&&◌, IfNone, IfOk, IfSome, OnOk, false, filter, map, not, option_map, true};
ghost use Rattle.std.specs.List.{AllByRecursion};
ghost use Rattle.journal_text.specs.Inputs.{InputIsRead};
ghost use Rattle.list_laws.specs.Fronts.{IsFront};
ghost use Rattle.reply_tables.specs.Events.{IsEvent};
ghost use Rattle.tcf_text.specs.Lines.{from_hello};
ghost use Rattle.tcf_text.specs.Once.{Once};
ghost use Rattle.target_hub.specs.History.{closes, input_after, opens};
ghost use Rattle.target_hub.specs.HubValue.{usable};
ghost use Rattle.target_hub.specs.Limits.{AreEvents};
ghost use Rattle.target_hub.specs.Received.{is_owed};
ghost use Rattle.target_hub.specs.Sent.{agent_services, answer_told, event_told, events_told, hello_at, progress_at, progress_data, sent, tick_events_told};
ghost use Rattle.log_check.specs.Heard.{AreGiven, Heard, given_by, owed_in, own_told, told_if, told_of_gift};
ghost use Rattle.log_check.specs.Rules.{OnItsChannel};
ghost use Rattle.target_hub.specs.Ordered.{IsToldInOrder};
ghost use Rattle.log_check.specs.Sorts.{AreSorted, as_accepted};

use crate::channel::{channel_of, from_hello};
use crate::messages::{Message, hear, is_none_owed};
use crate::replay::{Gives, first_input, follow, new_hub};
use crate::sorts::{Command, commands_in};
use reply_tables::write_event;
use std::alloc::{AllocError, Global};
use target_hub::{Answered, Done, Events, Hub, Image, Input, Numbers};
use tcf_outside::Octets;
use tcf_text::LogLine;
use tcf_values::EventData;

/// What the Hello of the agent says of its services.
#[tactic(auto, unfolding(target_hub::specs::Sent::agent_services))]
fn agent_services() -> &'static [u8]
    ensures { result.now ≡ agent_services }
{
    b"[\"Locator\",\"RunControl\",\"Breakpoints\",\"Memory\",\"Registers\",\"Processes\",\"Trace\"]\0"
}

/// The first of some events, and the others.
fn first_event(events: &[EventData]) -> Option<(&EventData, &[EventData])>
    ensures some { IfSome result (λ parts. events.now ≡ parts.0.now ∷ parts.1.now) }
    ensures none { IfNone result (events.now ≡ []) }
{
    match events {
        [event, rest @ ..] => Some((event, rest)),
        [] => None,
    }
}

/// The first of some addresses, and the others.
fn first_address(addresses: &[u32]) -> Option<(u32, &[u32])>
    ensures some { IfSome result (λ parts. addresses.now ≡ parts.0 ∷ parts.1.now) }
    ensures none { IfNone result (addresses.now ≡ []) }
{
    match addresses {
        [address, rest @ ..] => Some((*address, rest)),
        [] => None,
    }
}

/// The data of progress: the address of an executed instruction.
fn progress_data(alloc: Global, address: u32) -> Result<Octets, AllocError>
    ensures { IfOk result (λ body. body ≡ progress_data address) }
{
    let digits = format!(in alloc; "{address}")?;
    let mut body = Octets::from_slice(alloc, digits.as_bytes())?;
    body.push(0)?;
    Ok(body)
}

/// A log that is walked beside the history: the channel that it was made on, and the commands that it says were sent.
#[derive(Clone, Copy)]
struct Listener<'a, 'b> {
    alloc: Global,
    channel: u64,
    commands: &'b [Command<'a>],
}

impl Listener<'_, '_> {
    /// The lines behind an event at this position.
    fn hear_event<'c>(
        self,
        position: u64,
        event: &EventData,
        lines: &'c [LogLine],
    ) -> Result<Option<&'c [LogLine]>, AllocError>
        requires sorted { AreSorted self.commands.now }
        requires event { IsEvent event.now }
        ensures { IfOk result (λ rest. Heard (as_accepted self.entry.commands.now) (event_told position event.now ∷ []) lines.now (option_map (λ r. r.now) rest)) }
    {
        let written = write_event(self.alloc, event)?;
        let message = Message::Event {
            position,
            service: written.service.as_bytes(),
            name: written.name.as_bytes(),
            body: written.body.as_slice(),
        };
        Ok(hear(self.commands, message, lines))
    }

    /// The lines behind these events.
    #[tactic(auto, using(crate::proofs::Ears::events_first, crate::proofs::Ears::event_fine, crate::proofs::Ears::events_next, crate::proofs::Ears::events_not, crate::proofs::Ears::events_last))]
    fn hear_events<'c>(
        self,
        position: u64,
        events: &Events,
        lines: &'c [LogLine],
    ) -> Result<Option<&'c [LogLine]>, AllocError>
        requires sorted { AreSorted self.commands.now }
        requires events { AreEvents events.now }
        ensures { IfOk result (λ rest. Heard (as_accepted self.entry.commands.now) (events_told position events.now) lines.now (option_map (λ r. r.now) rest)) }
    {
        let mut left = events.as_slice();
        let mut rest = lines;
        while let Some((event, after)) = first_event(left) {
            match self.hear_event(position, event, rest)? {
                Some(next) => {
                    rest = next;
                    left = after;
                }
                None => return Ok(None),
            }
        }
        Ok(Some(rest))
    }

    /// The lines behind the progress that tells of an executed instruction.
    fn hear_address<'c>(
        self,
        position: u64,
        address: u32,
        lines: &'c [LogLine],
    ) -> Result<Option<&'c [LogLine]>, AllocError>
        requires { AreSorted self.commands.now }
        ensures { IfOk result (λ rest. Heard (as_accepted self.entry.commands.now) (progress_at position (progress_data address) ∷ []) lines.now (option_map (λ r. r.now) rest)) }
    {
        let body = progress_data(self.alloc, address)?;
        let message = Message::Progress {
            position,
            body: body.as_slice(),
        };
        Ok(hear(self.commands, message, lines))
    }

    /// The lines behind the progress of a command: the addresses of the instructions that it executed.
    #[tactic(auto, using(crate::proofs::Ears::addresses_first, crate::proofs::Ears::addresses_next, crate::proofs::Ears::addresses_not, crate::proofs::Ears::addresses_last))]
    fn hear_progress<'c>(
        self,
        position: u64,
        addresses: &Numbers,
        lines: &'c [LogLine],
    ) -> Result<Option<&'c [LogLine]>, AllocError>
        requires { AreSorted self.commands.now }
        ensures { IfOk result (λ rest. Heard (as_accepted self.entry.commands.now) (map (λ address. progress_at position (progress_data address)) addresses.now) lines.now (option_map (λ r. r.now) rest)) }
    {
        let mut left = addresses.as_slice();
        let mut rest = lines;
        while let Some((address, after)) = first_address(left) {
            match self.hear_address(position, address, rest)? {
                Some(next) => {
                    rest = next;
                    left = after;
                }
                None => return Ok(None),
            }
        }
        Ok(Some(rest))
    }

    /// The lines behind the final answer to a command that the target alone answers.
    fn hear_final<'c>(
        self,
        position: u64,
        answer: &Answered,
        lines: &'c [LogLine],
    ) -> Option<&'c [LogLine]>
        requires { AreSorted self.commands.now }
        ensures { Heard (as_accepted self.entry.commands.now) (answer_told position true answer.now ∷ []) lines.now (option_map (λ r. r.now) result) }
    {
        match answer {
            Answered::Result(body) => {
                let message = Message::Final {
                    position,
                    body: body.as_slice(),
                };
                hear(self.commands, message, lines)
            }
            Answered::Unknown => hear(self.commands, Message::Unknown { position }, lines),
        }
    }

    /// The lines behind the final answer to a command, if the target alone answers it.
    #[tactic(auto, using(crate::proofs::Ears::answer_owed, crate::proofs::Ears::answer_not_owed))]
    fn hear_answer<'c>(
        self,
        position: u64,
        through: bool,
        answer: &Answered,
        lines: &'c [LogLine],
    ) -> Option<&'c [LogLine]>
        requires { AreSorted self.commands.now }
        ensures { Heard (as_accepted self.entry.commands.now) (answer_told position through answer.now ∷ []) lines.now (option_map (λ r. r.now) result) }
    {
        if through {
            self.hear_final(position, answer, lines)
        } else {
            Some(lines)
        }
    }

    /// The lines behind what its own command gave, but for the events.
    #[tactic(auto, using(crate::proofs::Ears::heard_next, crate::proofs::Ears::misheard_next))]
    fn hear_own<'c>(
        self,
        position: u64,
        through: bool,
        done: &Done,
        lines: &'c [LogLine],
    ) -> Result<Option<&'c [LogLine]>, AllocError>
        requires { AreSorted self.commands.now }
        ensures { IfOk result (λ rest. Heard (as_accepted self.entry.commands.now) (own_told position through done.now) lines.now (option_map (λ r. r.now) rest)) }
    {
        match self.hear_progress(position, &done.progress, lines)? {
            Some(rest) => Ok(self.hear_answer(position, through, &done.answer, rest)),
            None => Ok(None),
        }
    }

    /// The lines behind what a command gave to its channel alone.
    #[tactic(auto, using(crate::proofs::Ears::heard_then, crate::proofs::Ears::heard_else))]
    fn hear_if_own<'c>(
        self,
        own: bool,
        position: u64,
        through: bool,
        done: &Done,
        lines: &'c [LogLine],
    ) -> Result<Option<&'c [LogLine]>, AllocError>
        requires { AreSorted self.commands.now }
        ensures { IfOk result (λ rest. Heard (as_accepted self.entry.commands.now) (told_if own (own_told position through done.now)) lines.now (option_map (λ r. r.now) rest)) }
    {
        if own {
            self.hear_own(position, through, done, lines)
        } else {
            Ok(Some(lines))
        }
    }

    /// The lines behind what a command gave.
    #[tactic(auto, using(crate::proofs::Ears::heard_next, crate::proofs::Ears::misheard_next))]
    fn hear_done<'c>(
        self,
        position: u64,
        channel: u64,
        through: bool,
        done: &Done,
        lines: &'c [LogLine],
    ) -> Result<Option<&'c [LogLine]>, AllocError>
        requires sorted { AreSorted self.commands.now }
        requires events { AreEvents done.now.events }
        ensures { IfOk result (λ rest. Heard (as_accepted self.entry.commands.now) (told_of_gift self.entry.channel position (Gives.Does channel through done.now)) lines.now (option_map (λ r. r.now) rest)) }
    {
        match self.hear_events(position, &done.events, lines)? {
            Some(rest) => self.hear_if_own(channel == self.channel, position, through, done, rest),
            None => Ok(None),
        }
    }

    /// The lines behind the Hello of a channel, if it is this one.
    #[tactic(auto, using(crate::proofs::Ears::heard_then, crate::proofs::Ears::heard_else))]
    fn hear_hello<'c>(self, own: bool, position: u64, lines: &'c [LogLine]) -> Option<&'c [LogLine]>
        requires { AreSorted self.commands.now }
        ensures { Heard (as_accepted self.entry.commands.now) (told_if own (hello_at position agent_services ∷ [])) lines.now (option_map (λ r. r.now) result) }
    {
        if own {
            let message = Message::Hello {
                position,
                body: agent_services(),
            };
            hear(self.commands, message, lines)
        } else {
            Some(lines)
        }
    }

    /// The lines behind what a tick gave.
    #[tactic(auto, using(crate::proofs::Ears::hears_none))]
    fn hear_tick<'c>(
        self,
        position: u64,
        told: &Option<Events>,
        lines: &'c [LogLine],
    ) -> Result<Option<&'c [LogLine]>, AllocError>
        requires sorted { AreSorted self.commands.now }
        requires events { IfSome told.now AreEvents }
        ensures { IfOk result (λ rest. Heard (as_accepted self.entry.commands.now) (tick_events_told position told.now) lines.now (option_map (λ r. r.now) rest)) }
    {
        match told {
            Some(events) => self.hear_events(position, events, lines),
            None => Ok(Some(lines)),
        }
    }

    /// The lines behind what an input gave, while the channel is live.
    fn hear_live<'c>(
        self,
        position: u64,
        gives: &Gives,
        lines: &'c [LogLine],
    ) -> Result<Option<&'c [LogLine]>, AllocError>
        requires sorted { AreSorted self.commands.now }
        requires events { AreGiven gives.now }
        ensures { IfOk result (λ rest. Heard (as_accepted self.entry.commands.now) (told_of_gift self.entry.channel position gives.now) lines.now (option_map (λ r. r.now) rest)) }
    {
        match gives {
            Gives::Opens(channel) => Ok(self.hear_hello(*channel == self.channel, position, lines)),
            Gives::Does {
                channel,
                through,
                done,
            } => self.hear_done(position, *channel, *through, done, lines),
            Gives::Ticks(told) => self.hear_tick(position, told, lines),
            Gives::Closes(events) => self.hear_events(position, events, lines),
        }
    }

    /// The lines behind what the channel is told of an input, if it is live.
    #[tactic(auto, using(crate::proofs::Ears::heard_then, crate::proofs::Ears::heard_else))]
    fn hear_gift<'c>(
        self,
        live: bool,
        position: u64,
        gives: &Gives,
        lines: &'c [LogLine],
    ) -> Result<Option<&'c [LogLine]>, AllocError>
        requires sorted { AreSorted self.commands.now }
        requires events { AreGiven gives.now }
        ensures { IfOk result (λ rest. Heard (as_accepted self.entry.commands.now) (told_if live (told_of_gift self.entry.channel position gives.now)) lines.now (option_map (λ r. r.now) rest)) }
    {
        if live {
            self.hear_live(position, gives, lines)
        } else {
            Ok(Some(lines))
        }
    }

    /// Does the next input, and gives the lines behind what the channel is told of it, if it is live.
    fn hear_next<'c>(
        self,
        live: bool,
        position: u64,
        hub: &mut Hub,
        input: &Input,
        lines: &'c [LogLine],
    ) -> Result<Option<&'c [LogLine]>, AllocError>
        requires sorted { AreSorted self.commands.now }
        requires read { InputIsRead input.now }
        requires fresh { hub.old.is_spent ≡ false }
        ensures after { OnOk result (hub.new ≡ usable (input_after input.now hub.old.target)) }
        ensures heard { IfOk result (λ rest. Heard (as_accepted self.entry.commands.now) (told_if live (told_of_gift self.entry.channel position (given_by input.now hub.old.target))) lines.now (option_map (λ r. r.now) rest)) }
    {
        let gives = follow(hub, input)?;
        self.hear_gift(live, position, &gives, lines)
    }
}

/// Whether the channel was opened, with this input too.
fn was_opened(channel: u64, before: bool, input: &Input) -> bool
    ensures { result ≡ (before || opens channel input.now) }
{
    match input {
        Input::Opened(other) => before || *other == channel,
        _ => before,
    }
}

/// Whether the channel was closed, with this input too.
fn was_closed(channel: u64, before: bool, input: &Input) -> bool
    ensures { result ≡ (before || closes channel input.now) }
{
    match input {
        Input::Closed(other) => before || *other == channel,
        _ => before,
    }
}

/// Whether a channel that was opened, or wasn't, and closed or not, is live.
fn is_live(opened: bool, closed: bool) -> bool
    ensures { result ≡ (opened && not closed) }
{
    opened && !closed
}

/// Whether what the lines say that they were told is the front of what the history tells the listener.
#[tactic(auto, using(crate::proofs::Standing::input_read))]
fn is_told(
    listener: Listener<'_, '_>,
    images: &[Image],
    inputs: &[Input],
    lines: &[LogLine],
) -> Result<bool, AllocError>
    requires sorted { AreSorted listener.commands.now }
    requires read { AllByRecursion InputIsRead inputs.now }
    ensures { IfOk result (λ holds. (holds ≡ true) ↔ IsFront (owed_in (as_accepted listener.entry.commands.now) lines.now) (filter is_owed (sent images.now listener.entry.channel inputs.now))) }
{
    let mut hub = new_hub(listener.alloc, images)?;
    let mut opened = false;
    let mut closed = false;
    let mut position = 0u64;
    let mut left = inputs;
    let mut rest = lines;
    while let Some((input, after)) = first_input(left) {
        position += 1;
        opened = was_opened(listener.channel, opened, input);
        closed = was_closed(listener.channel, closed, input);
        let live = is_live(opened, closed);
        match listener.hear_next(live, position, &mut hub, input, rest)? {
            Some(next) => {
                rest = next;
                left = after;
            }
            None => return Ok(false),
        }
    }
    Ok(is_none_owed(listener.commands, rest))
}

/// Whether what the client received is the front of what the target told its channel, but for answers that a peer may give.
#[tactic(auto, using(crate::proofs::Sorting::sorted, crate::proofs::Standing::no_channel, crate::proofs::Standing::on_channel))]
pub(crate) fn is_in_order(
    alloc: Global,
    images: &[Image],
    inputs: &[Input],
    lines: &[LogLine],
) -> Result<bool, AllocError>
    requires read { AllByRecursion InputIsRead inputs.now }
    requires once { Once false lines.now }
    ensures { IfOk result (λ holds. (holds ≡ true) ↔ OnItsChannel lines.now inputs.now (IsToldInOrder images.now inputs.now lines.now)) }
{
    let Some(channel) = channel_of(inputs, lines) else {
        return Ok(true);
    };
    let found = commands_in(alloc, lines)?;
    let commands = found.as_slice();
    let listener = Listener {
        alloc,
        channel,
        commands,
    };
    is_told(listener, images, inputs, from_hello(lines))
}
