//! The client.
ghost use Rattle.std.specs.Prelude.{◌≡◌, ◌↔◌, ◌+◌, ◌++◌, ◌∷◌, [], true, false, None, Some, Ok, IfOk, IfSome, IsSome, OnErr, OnOk, length, map, option_map};
ghost use Rattle.cached_lines.specs.Asked.{IsAsked};
ghost use Rattle.channel_core.specs.EndValue.{EndValue, unless_spent};
ghost use Rattle.channel_core.specs.Receiving.{waiting_in};
ghost use Rattle.channel_core.specs.Closing.{is_closed};
ghost use Rattle.tcf_message.specs.Message.{HasNoZero, reading};
ghost use Rattle.channel_core.specs.Taking.{closes};
ghost use Rattle.tcf_text.specs.declared.log.LogLine.TheVariants.{Closed};
ghost use Rattle.client_node.specs.Usable.{IsUsable};
ghost use Rattle.client_node.specs.Client.{after_giving, asked, came, client_services, closed, closed_for, closed_lines, ended, given, new_client, not_recognised, noted, opened, pending_on, refused_for, sent, sent_or_refused, took, turned, turned_by, waiting_on, with_channel, with_line};

use crate::lines::{end_of, event_line, final_line, hello_line, progress_line, sent_line, why_of};
use cached_lines::CachedWhat;
use channel_core::{Cause, End, EndState, Incoming, Outgoing, Refused, Taken};
use client_log::ClientLog;
use std::alloc::{AllocError, Global};
use std::marker::Model;
use tcf_message::{Message, read};
use tcf_text::{LogLine, RefusedWhy};

/// A client, whose commands are numbered from 1 as they are accepted. Contracts see its end of the channel, its log, and
/// whether memory was wanting in a call: then the client is spent and has no channel any more, each later call that may take
/// memory answers want of it again, and no call changes anything.
#[derive(Drop)]
pub struct ClientNode {
    alloc: Global,
    channel: Option<End<u64>>,
    log: ClientLog,
    spent: bool,
}

impl Model for ClientNode {
    ghost use Rattle.client_node.specs.ClientValue.{ClientValue};

    ghost Value = { ClientValue };

    ghost use Rattle.std.specs.Prelude.{◌≡◌, false};
    ghost use Rattle.client_node.specs.Usable.{IsUsable};

    ghost view = { λ c. record { channel = c.channel; log = c.log; is_spent = c.spent } };

    ghost invariant = { λ c. c.spent ≡ false → IsUsable c.channel };
}

impl ClientNode {
    /// Makes a client that isn't opened, and whose cache knows nothing.
    pub fn new(alloc: Global) -> Result<ClientNode, AllocError>
        ensures { IfOk result (λ client. client ≡ new_client) }
    {
        Ok(ClientNode {
            alloc,
            channel: None,
            log: ClientLog::new(alloc)?,
            spent: false,
        })
    }

    /// Opens the channel: the client's Hello is to be sent.
    pub fn opened(&mut self) -> Result<(), AllocError>
        requires { self.old.channel ≡ None }
        ensures opened { OnOk result (self.new ≡ opened self.old) }
        ensures fresh { OnOk result (self.old.is_spent ≡ false) }
        ensures spent { OnErr result (self.new.is_spent ≡ true) }
        ensures silent { OnErr result (self.new.channel ≡ None) }
        ensures kept { self.old.is_spent ≡ true → self.new ≡ record self.old { channel = None } }
    {
        self.begin()?;
        let answer = self.try_open();
        self.settle(answer)
    }

    #[tactic(auto, unfolding(crate::specs::Client::client_services))]
    fn try_open(&mut self) -> Result<(), AllocError>
        requires begun { self.old.is_spent ≡ true }
        ensures opened { OnOk result (self.new ≡ opened self.old) }
        ensures usable { OnOk result (IsUsable self.new.channel) }
        ensures spent { self.new.is_spent ≡ true }
    {
        let end = End::new(self.alloc, b"[\"Locator\"]\0", None)?;
        self.channel = Some(end);
        Ok(())
    }

    /// Sends a command. It is accepted under the next number, and the log has a line `sent`; or refused, with a line that
    /// says why: before the opening and on a closed channel (`NotOpen`), past the limit of a message (`TooLong`), at
    /// 1,024 pending commands (`Full`), and behind the last number (`Spent`).
    pub fn send(&mut self, service: &[u8], name: &[u8], body: &[u8]) -> Result<(), AllocError>
        requires service { HasNoZero service.now }
        requires name { HasNoZero name.now }
        ensures sent { OnOk result (self.new ≡ sent service.now name.now body.now self.old) }
        ensures fresh { OnOk result (self.old.is_spent ≡ false) }
        ensures spent { OnErr result (self.new.is_spent ≡ true) }
        ensures silent { OnErr result (self.new.channel ≡ None) }
        ensures kept { self.old.is_spent ≡ true → self.new ≡ record self.old { channel = None } }
    {
        self.begin()?;
        let answer = self.try_send(service, name, body);
        self.settle(answer)
    }

    fn try_send(&mut self, service: &[u8], name: &[u8], body: &[u8]) -> Result<(), AllocError>
        requires service { HasNoZero service.now }
        requires name { HasNoZero name.now }
        requires begun { self.old.is_spent ≡ true }
        requires usable { IsUsable self.old.channel }
        ensures sent { OnOk result (self.new ≡ sent service.now name.now body.now self.old) }
        ensures usable { OnOk result (IsUsable self.new.channel) }
        ensures spent { self.new.is_spent ≡ true }
    {
        let Some(end) = &mut self.channel else {
            return self.note(LogLine::Refused(RefusedWhy::NotOpen));
        };
        let number = end.last().saturating_add(1);
        match end.send_command(service, name, body, number, None) {
            Ok(_token) => {
                let line = sent_line(self.alloc, number, service, name, body)?;
                self.note(line)
            }
            Err(Refused { why, .. }) => match why_of(why) {
                Some(why) => self.note(LogLine::Refused(why)),
                None => Err(AllocError),
            },
        }
    }

    /// Asks the cache of what the log tells, and puts a line into the log that says what it has.
    pub fn cached(&mut self, what: &CachedWhat) -> Result<(), AllocError>
        requires { IsAsked what.now }
        ensures asked { OnOk result (self.new ≡ asked what.now self.old) }
        ensures fresh { OnOk result (self.old.is_spent ≡ false) }
        ensures spent { OnErr result (self.new.is_spent ≡ true) }
        ensures silent { OnErr result (self.new.channel ≡ None) }
        ensures kept { self.old.is_spent ≡ true → self.new ≡ record self.old { channel = None } }
    {
        self.begin()?;
        let answer = self.log.ask(what);
        self.settle(answer)
    }

    /// Takes the oldest entry of the inbox, with a line in the log: answers whether there was one, which takes no memory
    /// where there is none. A command of the other side is answered as one that isn't recognised, and has no line. Where
    /// the end closes, each command that is pending has its line `closed`, in order of issue, and then the channel its
    /// line `end`.
    pub fn turn(&mut self) -> Result<bool, AllocError>
        ensures turned { IfOk result (λ some. (some, self.new) ≡ turned self.old) }
        ensures nothing { IfOk result (λ some. (some ≡ false) ↔ (waiting_on self.old.channel ≡ 0)) }
        ensures idle { self.old.is_spent ≡ false → waiting_on self.old.channel ≡ 0 → result ≡ Ok false }
        ensures fresh { OnOk result (self.old.is_spent ≡ false) }
        ensures spent { OnErr result (self.new.is_spent ≡ true) }
        ensures silent { OnErr result (self.new.channel ≡ None) }
        ensures kept { self.old.is_spent ≡ true → self.new ≡ record self.old { channel = None } }
    {
        self.begin()?;
        let answer = self.try_turn();
        self.settle(answer)
    }

    fn try_turn(&mut self) -> Result<bool, AllocError>
        requires begun { self.old.is_spent ≡ true }
        requires usable { IsUsable self.old.channel }
        ensures turned { IfOk result (λ some. (some, self.new) ≡ turned self.old) }
        ensures idle { waiting_on self.old.channel ≡ 0 → result ≡ Ok false }
        ensures usable { OnOk result (IsUsable self.new.channel) }
        ensures spent { self.new.is_spent ≡ true }
    {
        let Some(end) = &mut self.channel else {
            return Ok(false);
        };
        match end.next_message()? {
            Some(what) => {
                self.take(what)?;
                Ok(true)
            }
            None => Ok(false),
        }
    }

    /// Takes what the end gave.
    fn take(&mut self, what: Taken<u64>) -> Result<(), AllocError>
        requires opened { IsSome self.old.channel }
        requires closed { closes (Some what) ≡ true → IfSome self.old.channel (λ e. is_closed e.state ≡ true) }
        requires begun { self.old.is_spent ≡ true }
        requires usable { IsUsable self.old.channel }
        ensures took { OnOk result (IfSome self.old.channel (λ e. self.new ≡ took what e self.old)) }
        ensures usable { OnOk result (IsUsable self.new.channel) }
        ensures spent { self.new.is_spent ≡ true }
    {
        let line = match what {
            Taken::Hello(incoming) => hello_line(self.alloc, &incoming)?,
            Taken::Event(incoming) => event_line(self.alloc, &incoming)?,
            Taken::Command(incoming) => return self.answer(&incoming),
            Taken::Progress(number, incoming) => progress_line(self.alloc, number, &incoming)?,
            Taken::Final(number, incoming) => final_line(self.alloc, number, &incoming)?,
            Taken::Closed(cause) => return self.finish(cause),
        };
        match line {
            Some(line) => self.note(line),
            None => Ok(()),
        }
    }

    /// Answers a command of the other side, which isn't recognised.
    fn answer(&mut self, incoming: &Incoming) -> Result<(), AllocError>
        requires begun { self.old.is_spent ≡ true }
        requires usable { IsUsable self.old.channel }
        ensures answered { OnOk result (IfSome self.old.channel (λ e. self.new ≡ with_channel (not_recognised (reading incoming.now.raw) e) self.old)) }
        ensures usable { OnOk result (IsUsable self.new.channel) }
        ensures spent { self.new.is_spent ≡ true }
    {
        let Some(end) = &mut self.channel else {
            return Ok(());
        };
        match read(incoming.raw.as_slice()) {
            Ok(Message::Command { token, .. }) => end.send_unknown(token, None),
            _ => Ok(()),
        }
    }

    /// Writes the last lines of a closed end: its pending commands, and why it closed.
    fn finish(&mut self, cause: Cause) -> Result<(), AllocError>
        requires begun { self.old.is_spent ≡ true }
        requires usable { IsUsable self.old.channel }
        requires closed { IfSome self.old.channel (λ e. is_closed e.state ≡ true) }
        ensures finished { OnOk result (IfSome self.old.channel (λ e. self.new ≡ closed_for cause e self.old)) }
        ensures usable { OnOk result (IsUsable self.new.channel) }
        ensures spent { self.new.is_spent ≡ true }
    {
        if let Some(end) = &mut self.channel {
            drain(end, &mut self.log)?;
            self.log.push(LogLine::Ended(end_of(cause)))?;
        }
        Ok(())
    }

    /// Closes the channel, with the last lines of the log. Before the opening, and on a closed channel, nothing happens.
    pub fn close(&mut self) -> Result<(), AllocError>
        ensures closed { OnOk result (self.new ≡ closed self.old) }
        ensures fresh { OnOk result (self.old.is_spent ≡ false) }
        ensures spent { OnErr result (self.new.is_spent ≡ true) }
        ensures silent { OnErr result (self.new.channel ≡ None) }
        ensures kept { self.old.is_spent ≡ true → self.new ≡ record self.old { channel = None } }
    {
        self.begin()?;
        let answer = self.try_close();
        self.settle(answer)
    }

    fn try_close(&mut self) -> Result<(), AllocError>
        requires begun { self.old.is_spent ≡ true }
        requires usable { IsUsable self.old.channel }
        ensures closed { OnOk result (self.new ≡ closed self.old) }
        ensures usable { OnOk result (IsUsable self.new.channel) }
        ensures spent { self.new.is_spent ≡ true }
    {
        let Some(end) = &mut self.channel else {
            return Ok(());
        };
        if end.state().is_closed() {
            return Ok(());
        }
        end.close();
        self.finish(Cause::Own)
    }

    /// Gives the end the next bytes that came, with their mark. Before the opening, and on a closed channel, nothing happens.
    pub fn deliver(&mut self, piece: &[u8], mark: Option<u64>) -> Result<(), AllocError>
        ensures came { OnOk result (self.new ≡ came piece.now mark self.old) }
        ensures fresh { OnOk result (self.old.is_spent ≡ false) }
        ensures spent { OnErr result (self.new.is_spent ≡ true) }
        ensures silent { OnErr result (self.new.channel ≡ None) }
        ensures kept { self.old.is_spent ≡ true → self.new ≡ record self.old { channel = None } }
    {
        self.begin()?;
        let answer = self.try_deliver(piece, mark);
        self.settle(answer)
    }

    fn try_deliver(&mut self, piece: &[u8], mark: Option<u64>) -> Result<(), AllocError>
        requires begun { self.old.is_spent ≡ true }
        requires usable { IsUsable self.old.channel }
        ensures came { OnOk result (self.new ≡ came piece.now mark self.old) }
        ensures usable { OnOk result (IsUsable self.new.channel) }
        ensures spent { self.new.is_spent ≡ true }
    {
        match &mut self.channel {
            Some(end) => end.deliver(piece, mark),
            None => Ok(()),
        }
    }

    /// Enters the end of the bytes into the inbox. Before the opening, and on a closed channel, nothing happens.
    pub fn ended(&mut self)
        ensures { self.new ≡ ended self.old }
    {
        if let Some(end) = &mut self.channel {
            end.ended();
        }
    }

    /// Takes the next message that is to be sent, or the end of the stream, escaped; `None` exactly where nothing is
    /// queued, and so before the opening and where the client is spent.
    pub fn take_out(&mut self) -> Option<Outgoing>
        ensures given { result ≡ given self.old }
        ensures after { self.new ≡ after_giving self.old }
    {
        let end = self.channel.as_mut()?;
        end.take_out()
    }

    /// The log so far.
    pub fn log(&self) -> &[LogLine]
        ensures { result.now ≡ self.now.log }
    {
        self.log.lines()
    }

    /// How many entries stand in the inbox; none before the opening and on a closed channel.
    pub fn waiting(&self) -> usize
        ensures { result ≡ waiting_on self.now.channel }
    {
        match &self.channel {
            Some(end) => end.waiting(),
            None => 0,
        }
    }

    /// How many commands are pending.
    pub fn pending(&self) -> usize
        ensures { result ≡ pending_on self.now.channel }
    {
        match &self.channel {
            Some(end) => end.pending(),
            None => 0,
        }
    }

    /// Where the client's end of the channel stands; `None` before the opening, and where the client is spent.
    pub fn state(&self) -> Option<EndState>
        ensures { result ≡ option_map (λ e. e.state) self.now.channel }
    {
        match &self.channel {
            Some(end) => Some(end.state()),
            None => None,
        }
    }

    /// Puts a line into the log.
    fn note(&mut self, line: LogLine) -> Result<(), AllocError>
        ensures noted { OnOk result (self.new ≡ with_line line self.old) }
        ensures channel { self.new.channel ≡ self.old.channel }
        ensures spent { self.new.is_spent ≡ self.old.is_spent }
    {
        self.log.push(line)?;
        Ok(())
    }

    /// Begins a call that may meet want of memory: the client is spent until the call is done.
    fn begin(&mut self) -> Result<(), AllocError>
        ensures began { OnOk result (self.new ≡ record self.old { is_spent = true }) }
        ensures usable { OnOk result (IsUsable self.new.channel) }
        ensures fresh { OnOk result (self.old.is_spent ≡ false) }
        ensures spent { self.new.is_spent ≡ true }
        ensures silent { OnErr result (self.new ≡ record self.old { channel = None }) }
        ensures met { OnErr result (self.old.is_spent ≡ true) }
    {
        if self.spent {
            self.channel = None;
            return Err(AllocError);
        }
        self.spent = true;
        Ok(())
    }

    /// Ends a call that may have met want of memory: then the client stays spent, and its channel is gone.
    fn settle<A>(&mut self, answer: Result<A, AllocError>) -> Result<A, AllocError>
        requires { OnOk answer (IsUsable self.old.channel) }
        ensures same { result ≡ answer }
        ensures done { OnOk answer (self.new ≡ record self.old { is_spent = false }) }
        ensures silent { OnErr answer (self.new ≡ record self.old { channel = None; is_spent = true }) }
    {
        match answer {
            Ok(given) => {
                self.spent = false;
                Ok(given)
            }
            Err(AllocError) => {
                self.channel = None;
                self.spent = true;
                Err(AllocError)
            }
        }
    }
}

/// Writes a line `closed` for each command that is pending at a closed end, in order of issue.
fn drain(end: &mut End<u64>, log: &mut ClientLog) -> Result<(), AllocError>
    requires closed { is_closed end.old.state ≡ true }
    requires usable { end.old.is_spent ≡ false }
    ensures lines { OnOk result (log.new ≡ log.old ++ map (λ row. Closed row.1) end.old.pending) }
    ensures drained { OnOk result (end.new ≡ record end.old { pending = [] }) }
{
    while let Some(number) = end.drain() {
        log.push(LogLine::Closed { number })?;
    }
    Ok(())
}
