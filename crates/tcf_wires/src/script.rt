//! Wires that follow a script: what comes, how each connect is answered, what each put takes, which calls fail.
ghost use Rattle.std.specs.Prelude.{◌≡◌, ◌++◌, ◌∷◌, [], IfOk, OnOk, OnErr, Some, nat_le};
ghost use Rattle.tcf_wires.specs.Told.{taken_by};

use crate::call::WireCall;
use crate::event::{Put, WireEvent, WireRefusal};
use crate::wires::Wires;
use std::alloc::{AllocError, Global};
use std::collections::VecDeque;
use std::marker::Model;
use tcf_outside::{Duplicate, Octets};

/// Wires that follow a script and tell all their calls. After the last of its events comes `Stop`, and a put that the
/// script doesn't speak of takes all. An event that can't come, as an opening under a number that isn't above all that
/// were given, comes as `Idle`; where a connect's number isn't, or the script has none, it gives the least that is. A
/// call that is made to fail takes nothing from the script.
#[derive(Debug, Drop)]
pub struct WireScript {
    alloc: Global,
    calls: Vec<WireCall>,
    events: VecDeque<WireEvent>,
    answers: VecDeque<Option<u64>>,
    takes: VecDeque<usize>,
    failing: Vec<usize>,
    last: Option<u64>,
    faults: u64,
}

impl Model for WireScript {
    ghost use Rattle.std.specs.Prelude.{length};
    ghost use Rattle.tcf_wires.specs.Scripted.{ScriptedValue, above};

    ghost Value = { ScriptedValue };

    ghost view = { λ w. record { calls = w.calls.items; script = record { events = w.events.items; answers = w.answers.items; takes = w.takes.items; failing = w.failing.items; number = length w.calls.items }; unused = above w.last; faults = w.faults } };
}

impl WireScript {
    ghost use Rattle.tcf_wires.specs.Event.{can_come};
    ghost use Rattle.tcf_wires.specs.Script.{fails, next_event, connect_number, put_count};
    ghost use Rattle.tcf_wires.specs.Told.{taken_on};

    /// A script with nothing in it, of which no call fails.
    pub fn new(alloc: Global) -> Self
        ensures { result ≡ record { calls = []; script = record { events = []; answers = []; takes = []; failing = []; number = 0 }; unused = 0; faults = 0 } }
    {
        WireScript {
            alloc,
            calls: Vec::new(alloc),
            events: VecDeque::new(alloc),
            answers: VecDeque::new(alloc),
            takes: VecDeque::new(alloc),
            failing: Vec::new(alloc),
            last: None,
            faults: 0,
        }
    }

    /// Lets the event come after those that are there.
    pub fn give(&mut self, event: WireEvent) -> Result<(), AllocError>
        ensures ok { OnOk result (self.new ≡ record self.old { script = record self.old.script { events = self.old.script.events ++ event ∷ [] } }) }
        ensures err { OnErr result (self.new ≡ self.old) }
    {
        self.events.push_back(event)?;
        Ok(())
    }

    /// Has a connect answered by this number, or fail where there is none.
    pub fn answer(&mut self, channel: Option<u64>) -> Result<(), AllocError>
        ensures ok { OnOk result (self.new ≡ record self.old { script = record self.old.script { answers = self.old.script.answers ++ channel ∷ [] } }) }
        ensures err { OnErr result (self.new ≡ self.old) }
    {
        self.answers.push_back(channel)?;
        Ok(())
    }

    /// Lets a put take at most so many bytes.
    pub fn take_at_most(&mut self, most: usize) -> Result<(), AllocError>
        ensures ok { OnOk result (self.new ≡ record self.old { script = record self.old.script { takes = self.old.script.takes ++ most ∷ [] } }) }
        ensures err { OnErr result (self.new ≡ self.old) }
    {
        self.takes.push_back(most)?;
        Ok(())
    }

    /// Makes a call fail, counted from 0 over all that didn't want memory. A shut never fails.
    pub fn fail_at(&mut self, call: usize) -> Result<(), AllocError>
        ensures ok { OnOk result (self.new ≡ record self.old { script = record self.old.script { failing = self.old.script.failing ++ call ∷ [] } }) }
        ensures err { OnErr result (self.new ≡ self.old) }
    {
        self.failing.push(call)?;
        Ok(())
    }

    /// The calls so far, in order.
    pub fn calls(&self) -> &[WireCall]
        ensures { result.now ≡ self.now.calls }
    {
        self.calls.as_slice()
    }

    /// All bytes that were taken on a channel.
    pub fn taken(&self, channel: u64) -> Result<Octets, AllocError>
        ensures { IfOk result (λ bytes. bytes ≡ taken_on channel self.now.calls) }
    {
        let mut bytes = Octets::new(self.alloc);
        for call in &self.calls {
            bytes.extend(taken_by(call, channel))?;
        }
        Ok(bytes)
    }

    /// Whether the next call is one of those that fail.
    fn fails(&self) -> bool
        ensures { result ≡ fails self.now.script }
    {
        self.failing.contains(&self.calls.len())
    }

    /// Whether the number was never given, since it is above all that were.
    fn is_new(&self, channel: u64) -> bool
        ensures { result ≡ nat_le self.now.unused channel }
    {
        match self.last {
            Some(last) => last < channel,
            None => true,
        }
    }

    /// Whether the event can come now.
    fn can_come(&self, event: &WireEvent) -> bool
        ensures { result ≡ can_come self.now.unused event.now }
    {
        match event {
            WireEvent::Opened(channel) => self.is_new(*channel),
            WireEvent::Piece(_, bytes) => !bytes.is_empty() && bytes.len() <= 65_536,
            _ => true,
        }
    }

    /// What comes next, unless the call is made to fail.
    fn coming(&self) -> Result<WireEvent, AllocError>
        ensures { IfOk result (λ event. event ≡ next_event self.now.script.events self.now.unused) }
    {
        match self.events.front() {
            None => Ok(WireEvent::Stop),
            Some(event) if self.can_come(event) => event.copy(),
            Some(_) => Ok(WireEvent::Idle),
        }
    }

    /// The number that the next connect gives, unless it is made to fail.
    fn number(&self) -> Result<u64, WireRefusal>
        ensures { result ≡ connect_number self.now.script.answers self.now.unused }
    {
        let least = match self.last {
            Some(last) => last.checked_add(1),
            None => Some(0),
        };
        match (self.answers.front(), least) {
            (None, Some(least)) => Ok(least),
            (Some(Some(channel)), Some(least)) => Ok(least.max(*channel)),
            _ => Err(WireRefusal::Failed),
        }
    }

    /// How many bytes the next put takes of so many, unless it is made to fail.
    fn count(&self, offered: usize) -> usize
        ensures { result ≡ put_count self.now.script.takes offered }
    {
        match self.takes.front() {
            Some(most) => offered.min(*most),
            None => offered,
        }
    }
}

/// The bytes that the call took on this channel.
fn taken_by(call: &WireCall, channel: u64) -> &[u8]
    ensures { result.now ≡ taken_by call.now channel }
{
    match call {
        WireCall::Offered(number, piece, Put::Took(count)) if *number == channel => {
            let piece = piece.as_slice();
            &piece[..piece.len().min(*count)]
        }
        _ => &[],
    }
}

impl Wires for WireScript {
    ghost seen = { λ w. record { told = Some w.calls; faults = w.faults; unused = w.unused } };

    ghost script = { λ w. Some w.script };

    fn listen(&mut self, address: &str) -> Result<(), WireRefusal> {
        let answer = if self.fails() {
            Err(WireRefusal::Failed)
        } else {
            Ok(())
        };
        let address = Octets::from_slice(self.alloc, address.as_bytes())?;
        self.calls.push(WireCall::Listened(address, answer))?;
        if answer.is_err() {
            self.faults = self.faults.saturating_add(1);
        }
        answer
    }

    fn connect(&mut self, peer: &str) -> Result<u64, WireRefusal> {
        let fails = self.fails();
        let answer = if fails {
            Err(WireRefusal::Failed)
        } else {
            self.number()
        };
        let peer = Octets::from_slice(self.alloc, peer.as_bytes())?;
        self.calls.push(WireCall::Connected(peer, answer))?;
        if !fails {
            let _ = self.answers.pop_front();
        }
        match answer {
            Ok(channel) => self.last = Some(channel),
            Err(_) => self.faults = self.faults.saturating_add(1),
        }
        answer
    }

    fn next(&mut self) -> Result<WireEvent, WireRefusal> {
        if self.fails() {
            self.calls.push(WireCall::Gave(Err(WireRefusal::Failed)))?;
            self.faults = self.faults.saturating_add(1);
            return Err(WireRefusal::Failed);
        }
        let event = self.coming()?;
        self.calls.push(WireCall::Gave(Ok(event.copy()?)))?;
        let _ = self.events.pop_front();
        if let WireEvent::Opened(channel) = event {
            self.last = Some(channel);
        }
        Ok(event)
    }

    fn put(&mut self, channel: u64, piece: &[u8]) -> Put {
        let answer = if self.fails() {
            Put::Lost
        } else {
            Put::Took(self.count(piece.len()))
        };
        let Ok(offered) = Octets::from_slice(self.alloc, piece) else {
            return Put::NoMemory;
        };
        if self
            .calls
            .push(WireCall::Offered(channel, offered, answer))
            .is_err()
        {
            return Put::NoMemory;
        }
        match answer {
            Put::Took(_) => {
                let _ = self.takes.pop_front();
            }
            _ => self.faults = self.faults.saturating_add(1),
        }
        answer
    }

    fn shut(&mut self, channel: u64) -> Result<(), AllocError> {
        self.calls.push(WireCall::Shut(channel))?;
        Ok(())
    }
}
