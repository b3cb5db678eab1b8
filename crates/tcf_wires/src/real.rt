//! The real wires: connections of the system's. They tell nothing of what comes or goes.
ghost use Rattle.std.specs.Prelude.{◌≡◌, ◌<◌, ℕ, None, Ok, Err, IfOk, IsTrue};
ghost use Rattle.std.specs.Net.Grammar.{IsSocketText};
ghost use Rattle.std.specs.declared.net.socket_addr.SocketAddr.{SocketAddr};
ghost use Rattle.tcf_outside.specs.Faults.{raised};
ghost use Rattle.tcf_wires.specs.Event.{can_come, faults_after, unused_after_connect};
ghost use Rattle.tcf_wires.specs.Told.{noted};
ghost use Rattle.tcf_wires.specs.declared.call.WireCall.TheVariants.{Listened, Connected, Gave};

use crate::event::{Put, WireEvent, WireRefusal};
use crate::wires::Wires;
use mio::event::Event;
use mio::net::{TcpListener, TcpStream};
use mio::{Events, Interest, Poll, Token};
use std::alloc::{AllocError, Global};
use std::io;
use std::io::{ErrorKind, Read, Write};
use std::marker::Model;
use std::net::{Net, Shutdown, SocketAddr};
use std::time::{Clock, Duration, Instant};
use tcf_outside::Octets;

/// The most bytes of one piece.
const MOST: usize = 65_536;

/// The time that one wait takes where nothing comes, in milliseconds.
const WAIT: u64 = 10;

/// The most waits for a connection to be made, 5 seconds in all.
const WAITS: u32 = 500;

/// The token by which a wait tells of peers that are to be let in; that of a connection is its channel's number.
const PEERS: Token = Token(usize::MAX);

/// The most connections that are kept once they are shut.
const MOST_ENDING: usize = 64;

/// How long such a connection is kept at most, in seconds.
const PATIENCE: u64 = 2;

/// How often something is read on it at most, 13 MB in all.
const MOST_READS: u32 = 200;

/// What may be there on a connection that wasn't read yet.
#[derive(Clone, Copy)]
enum Input {
    /// Something may be there: the connection is new, or the system told so.
    Told,
    /// The end of the peer's stream, or a failure, is there, perhaps behind other bytes.
    End,
    /// The last read brought less than it could, so most likely nothing is there. It is tried again once a whole wait
    /// brought nothing.
    Little,
    /// A read found nothing.
    Nothing,
    /// The end of the peer's stream, or a failure, was read: nothing comes any more.
    Over,
}

/// A connection: the number of its channel, and what may be there to be read.
#[derive(Drop)]
struct Line {
    channel: u64,
    stream: TcpStream,
    input: Input,
}

/// A connection that was shut, whose peer may still send. If it were closed while something that came isn't read, the
/// system would take from the peer what was put last.
#[derive(Drop)]
struct Ending {
    channel: u64,
    stream: TcpStream,
    /// Whether something may be there that wasn't read.
    is_ready: bool,
    /// How often something may still be read on it.
    reads: u32,
    since: Instant,
}

/// The connections that the runtime reaches. A peer that is gone is told by `Lost`, and never ends the program. An
/// address is an IP address, `:` and a port. Of several addresses the last is listened on.
#[derive(Drop)]
pub struct RealWires<R: Net + Clock + Drop> {
    runtime: R,
    alloc: Global,
    poll: Poll,
    events: Events,
    listener: Option<TcpListener>,
    /// Whether a peer may wait to be let in.
    has_peer: bool,
    lines: Vec<Line>,
    /// Connections that were shut, the earliest first.
    ending: Vec<Ending>,
    /// Into which all pieces are read. Each is given out at its own size, so that many small ones that wait take little
    /// room.
    room: Vec<u8>,
    /// The place that is looked at first, so that each connection has its turn.
    turn: usize,
    /// Whether `next` doesn't wait.
    is_nonblocking: bool,
    unused: u64,
    faults: u64,
}

impl<R: Net + Clock + Drop> Model for RealWires<R> {
    ghost use Rattle.std.specs.Prelude.{None};
    ghost use Rattle.tcf_wires.specs.Told.{WiresSeen};

    ghost Value = { WiresSeen };

    ghost view = { λ wires. record { told = None; faults = wires.faults; unused = wires.unused } };
}

/// Nothing can be had or given now, which is no failure.
fn is_passing(error: &io::Error) -> bool {
    match error.kind() {
        ErrorKind::WouldBlock | ErrorKind::Interrupted | ErrorKind::OutOfMemory => true,
        _ => false,
    }
}

impl<R: Net + Clock + Drop> RealWires<R> {
    /// No connection, and nothing that is listened on. It fails where the system lends no means to wait.
    pub fn new(runtime: R, alloc: Global) -> io::Result<Self>
        ensures { IfOk result (λ wires. wires ≡ record { told = None; faults = 0; unused = 0 }) }
    {
        let poll = Poll::new(&runtime)?;
        Ok(RealWires {
            runtime,
            alloc,
            poll,
            events: Events::with_capacity(alloc, 64)?,
            listener: None,
            has_peer: false,
            lines: Vec::new(alloc),
            ending: Vec::new(alloc),
            room: Vec::new(alloc),
            turn: 0,
            is_nonblocking: false,
            unused: 0,
            faults: 0,
        })
    }

    /// Counts a failure.
    fn failed(&mut self) -> WireRefusal
        ensures answer { result ≡ WireRefusal.Failed }
        ensures tells_nothing { self.old.told ≡ None }
        ensures seen { self.new ≡ record self.old { faults = raised self.old.faults } }
    {
        self.faults = self.faults.saturating_add(1);
        WireRefusal::Failed
    }

    /// Counts the error of a call, unless it was want of memory.
    fn refused(&mut self, error: &io::Error) -> WireRefusal
        ensures seen { self.new ≡ record self.old { faults = faults_after {A = ℕ} (Err result) self.old.faults } }
    {
        match error.kind() {
            ErrorKind::OutOfMemory => WireRefusal::NoMemory,
            _ => self.failed(),
        }
    }

    /// A socket that listens on the address, and wakes a wait. The address can be taken again at once after an
    /// earlier program.
    fn listener(&self, address: SocketAddr) -> io::Result<TcpListener> {
        let mut listener = TcpListener::bind(&self.runtime, address)?;
        self.poll
            .registry()
            .register(&mut listener, PEERS, Interest::READABLE)?;
        Ok(listener)
    }

    /// A connection to the peer, which is waited for, with room for one event.
    fn stream(&self, peer: SocketAddr, events: &mut Events) -> io::Result<TcpStream> {
        let mut stream = TcpStream::connect(&self.runtime, peer)?;
        let mut poll = Poll::new(&self.runtime)?;
        poll.registry()
            .register(&mut stream, Token(0), Interest::WRITABLE)?;
        for _ in 0..WAITS {
            poll.poll(events, Some(Duration::from_millis(WAIT)))?;
            if !events.is_empty() {
                break;
            }
        }
        if let Some(error) = stream.take_error()? {
            return Err(error);
        }
        stream.peer_addr()?;
        self.register(&mut stream)?;
        Ok(stream)
    }

    /// Has the connection that gets the next number wake a wait by that, and send each put without a delay.
    fn register(&self, stream: &mut TcpStream) -> io::Result<()> {
        stream.set_nodelay(true)?;
        self.poll
            .registry()
            .register(stream, Token(self.unused as usize), Interest::READABLE)
    }

    /// Gives the connection the next number.
    fn admit(&mut self, stream: TcpStream) -> Result<u64, WireRefusal>
        ensures new { IfOk result (λ channel. channel ≡ self.old.unused) }
        ensures seen { self.new ≡ record self.old { faults = faults_after result self.old.faults; unused = unused_after_connect result self.old.unused } }
    {
        let channel = self.unused;
        let Some(unused) = channel.checked_add(1) else {
            return Err(self.failed());
        };
        self.lines.push(Line {
            channel,
            stream,
            input: Input::Told,
        })?;
        self.unused = unused;
        Ok(channel)
    }

    /// Lets a peer in that waits; `Idle` where there is none. A connection that can't be had or set up, since the
    /// system has no room for it or the peer has gone, is as if it had never come. The listener is asked again the next
    /// time, since the system may not tell again of a peer that waits already.
    fn accept(&mut self) -> Result<WireEvent, WireRefusal>
        ensures can { IfOk result (λ event. IsTrue (can_come self.old.unused event)) }
        ensures goes_on { result ≡ Ok WireEvent.Stop → ⊥ }
        ensures seen { self.new ≡ noted result (Gave result) self.old }
    {
        if !self.has_peer {
            return Ok(WireEvent::Idle);
        }
        self.lines.try_reserve(1)?;
        let Some(listener) = &self.listener else {
            return Ok(WireEvent::Idle);
        };
        match listener.accept() {
            Ok((mut stream, _)) => match self.register(&mut stream) {
                Ok(()) => Ok(WireEvent::Opened(self.admit(stream)?)),
                Err(_) => Ok(WireEvent::Idle),
            },
            Err(error) if error.kind() == ErrorKind::WouldBlock => {
                self.has_peer = false;
                Ok(WireEvent::Idle)
            }
            Err(_) => {
                make_room(&mut self.ending);
                Ok(WireEvent::Idle)
            }
        }
    }

    /// What came on one connection; `Idle` where nothing did.
    fn hear(&mut self, at: usize) -> Result<WireEvent, WireRefusal>
        ensures can { IfOk result (λ event. IsTrue (can_come self.old.unused event)) }
        ensures goes_on { result ≡ Ok WireEvent.Stop → ⊥ }
        ensures seen { self.new ≡ noted result (Gave result) self.old }
    {
        let Some(line) = self.lines.get_mut(at) else {
            return Ok(WireEvent::Idle);
        };
        match line.input {
            Input::Told | Input::End => {}
            _ => return Ok(WireEvent::Idle),
        }
        self.room.resize(MOST, 0)?;
        let mut reader = &line.stream;
        match reader.read(&mut self.room) {
            Ok(0) => {
                line.input = Input::Over;
                Ok(WireEvent::Ended(line.channel))
            }
            Ok(count) => {
                line.input = line.input.after(count);
                let bytes = self.room.as_slice().get(..count).unwrap_or(&[]);
                let piece = Octets::from_slice(self.alloc, bytes)?;
                Ok(WireEvent::Piece(line.channel, piece))
            }
            Err(error) if error.kind() == ErrorKind::WouldBlock => {
                line.input = Input::Nothing;
                Ok(WireEvent::Idle)
            }
            Err(error) if is_passing(&error) => Ok(WireEvent::Idle),
            Err(_) => {
                line.input = Input::Over;
                Ok(WireEvent::Lost(line.channel))
            }
        }
    }

    /// How many places are looked at: one for each connection, and one for peers that wait to be let in.
    fn places(&self) -> usize
        ensures some { 0 < result }
        ensures tells_nothing { self.now.told ≡ None }
    {
        self.lines.len().saturating_add(1)
    }

    /// What is there now at so many places, each in its turn; `Idle` where there is nothing.
    fn ready(&mut self, count: usize) -> Result<WireEvent, WireRefusal>
        ensures can { IfOk result (λ event. IsTrue (can_come self.old.unused event)) }
        ensures goes_on { result ≡ Ok WireEvent.Stop → ⊥ }
        ensures seen { self.new ≡ noted result (Gave result) self.old }
    {
        let places = self.places();
        for step in 0..count {
            let at = self.turn.wrapping_add(step) % places;
            let event = if at < self.lines.len() {
                self.hear(at)?
            } else {
                self.accept()?
            };
            match event {
                WireEvent::Idle => {}
                event => {
                    self.turn = at.wrapping_add(1);
                    return Ok(event);
                }
            }
        }
        Ok(WireEvent::Idle)
    }

    /// What is there now, without a wait. The system is asked once what has come, then each place has its turn, and then
    /// comes `Idle`, however much there is.
    fn next_at_once(&mut self) -> Result<WireEvent, WireRefusal>
        ensures can { IfOk result (λ event. IsTrue (can_come self.old.unused event)) }
        ensures goes_on { result ≡ Ok WireEvent.Stop → ⊥ }
        ensures seen { self.new ≡ noted result (Gave result) self.old }
    {
        if self.turn == 0 {
            self.wait(Duration::ZERO)?;
        }
        let left = self.places().saturating_sub(self.turn);
        let event = self.ready(left)?;
        if let WireEvent::Idle = event {
            self.turn = 0;
        }
        Ok(event)
    }

    /// What is there, for which it may wait.
    fn next_in_time(&mut self) -> Result<WireEvent, WireRefusal>
        ensures can { IfOk result (λ event. IsTrue (can_come self.old.unused event)) }
        ensures goes_on { result ≡ Ok WireEvent.Stop → ⊥ }
        ensures seen { self.new ≡ noted result (Gave result) self.old }
    {
        let most = self.places().saturating_add(1);
        for _ in 0..most {
            match self.ready(self.places())? {
                WireEvent::Idle => {}
                event => return Ok(event),
            }
            if !self.wait(Duration::from_millis(WAIT))? {
                look_again(&mut self.lines);
                break;
            }
        }
        Ok(WireEvent::Idle)
    }

    /// Waits so long at most until something may have come, and says whether it may. An interrupted wait brought nothing.
    fn wait(&mut self, time: Duration) -> Result<bool, WireRefusal>
        ensures seen { self.new ≡ record self.old { faults = faults_after result self.old.faults } }
    {
        match self.poll.poll(&mut self.events, Some(time)) {
            Ok(()) => {
                for event in self.events.iter() {
                    if event.token() == PEERS {
                        self.has_peer = true;
                    }
                    wake(&mut self.lines, event);
                    wake_ending(&mut self.ending, event);
                }
                Ok(!self.events.is_empty())
            }
            Err(error) if is_passing(&error) => Ok(false),
            Err(error) => Err(self.refused(&error)),
        }
    }

    /// Ends the stream of a connection that is shut. It is kept until its peer has ended too, unless nothing can be
    /// had of it any more, or there is no memory for it or no clock.
    fn end(&mut self, line: Line)
        ensures { self.new ≡ self.old }
    {
        if let Input::Over = line.input {
            return;
        }
        if line.stream.shutdown(Shutdown::Write).is_err() || self.room.resize(MOST, 0).is_err() {
            return;
        }
        let Ok(since) = Instant::now(&self.runtime) else {
            return;
        };
        if self.ending.len() >= MOST_ENDING {
            make_room(&mut self.ending);
        }
        let ending = Ending {
            channel: line.channel,
            stream: line.stream,
            is_ready: true,
            reads: MOST_READS,
            since,
        };
        drop(self.ending.push(ending));
    }

    /// Drops what came on connections that were shut, and closes those whose peer has ended or that were kept long enough.
    fn drain(&mut self)
        ensures { self.new ≡ self.old }
    {
        if self.ending.is_empty() {
            return;
        }
        match Instant::now(&self.runtime) {
            Ok(now) => drain(&mut self.ending, &mut self.room, now),
            Err(_) => self.ending.clear(),
        }
    }
}

impl Input {
    /// What may be there after a read of so many bytes. The system tells again of what comes later, but not of an end
    /// that it has told of.
    fn after(self, count: usize) -> Input {
        match self {
            Input::Told if count < MOST => Input::Little,
            input => input,
        }
    }
}

impl Ending {
    /// Reads once what came, and drops it.
    fn drain(&mut self, room: &mut [u8]) {
        if !self.is_ready {
            return;
        }
        let mut reader = &self.stream;
        match reader.read(room) {
            Ok(0) => self.reads = 0,
            Ok(_) => self.reads = self.reads.saturating_sub(1),
            Err(error) if error.kind() == ErrorKind::WouldBlock => self.is_ready = false,
            Err(error) if is_passing(&error) => {}
            Err(_) => self.reads = 0,
        }
    }

    /// Whether something may still be read on it.
    fn is_kept(&self, now: Instant) -> bool {
        self.reads > 0 && now.duration_since(self.since) < Duration::from_secs(PATIENCE)
    }
}

/// Drops what came on these connections, and closes those whose peer has ended or that were kept long enough.
fn drain(ending: &mut Vec<Ending>, room: &mut [u8], now: Instant) {
    for one in ending.iter_mut() {
        one.drain(room);
    }
    ending.retain(|one| one.is_kept(now));
}

/// Closes the connection that was shut first.
fn make_room(ending: &mut Vec<Ending>) {
    if !ending.is_empty() {
        drop(ending.remove(0));
    }
}

/// Something may have come on the connection of this event's token.
fn wake(lines: &mut [Line], event: &Event) {
    for line in lines {
        if Token(line.channel as usize) == event.token() {
            line.input = match line.input {
                Input::Over => Input::Over,
                _ if event.is_read_closed() || event.is_error() => Input::End,
                Input::End => Input::End,
                _ => Input::Told,
            };
        }
    }
}

/// The same of connections that were shut.
fn wake_ending(ending: &mut [Ending], event: &Event) {
    for one in ending {
        if Token(one.channel as usize) == event.token() {
            one.is_ready = true;
        }
    }
}

/// Connections whose last read brought less than it could are read once more, in case that something was left.
fn look_again(lines: &mut [Line]) {
    for line in lines {
        if let Input::Little = line.input {
            line.input = Input::Told;
        }
    }
}

impl<R: Net + Clock + Drop> Wires for RealWires<R> {
    ghost seen = { λ wires. wires };

    ghost script = { λ _. None };

    /// `Failed` where the text is no address, and where the system doesn't listen on it.
    fn listen(&mut self, address: &str) -> Result<(), WireRefusal>
        ensures text { ((a : SocketAddr) → IsSocketText address.now a → ⊥) → result ≡ Err WireRefusal.Failed }
        ensures seen { self.new ≡ noted result (Listened address.now result) self.old }
    {
        let Ok(address) = address.parse::<SocketAddr>() else {
            return Err(self.failed());
        };
        match self.listener(address) {
            Ok(listener) => {
                self.has_peer = true;
                self.listener = Some(listener);
                Ok(())
            }
            Err(error) => Err(self.refused(&error)),
        }
    }

    /// `Failed` where the text is no address, and where the peer refuses or doesn't answer within 5 seconds.
    fn connect(&mut self, peer: &str) -> Result<u64, WireRefusal>
        ensures text { ((a : SocketAddr) → IsSocketText peer.now a → ⊥) → result ≡ Err WireRefusal.Failed }
        ensures new { IfOk result (λ channel. channel ≡ self.old.unused) }
        ensures seen { self.new ≡ noted result (Connected peer.now result) self.old }
    {
        let Ok(peer) = peer.parse::<SocketAddr>() else {
            return Err(self.failed());
        };
        self.lines.try_reserve(1)?;
        let mut events = Events::with_capacity(self.alloc, 1)?;
        match self.stream(peer, &mut events) {
            Ok(stream) => self.admit(stream),
            Err(_) => Err(self.failed()),
        }
    }

    /// `Idle` comes where 10 milliseconds brought nothing; without a wait, once each connection has had its turn. `Stop`
    /// never comes.
    fn next(&mut self) -> Result<WireEvent, WireRefusal>
        ensures can { IfOk result (λ event. IsTrue (can_come self.old.unused event)) }
        ensures goes_on { result ≡ Ok WireEvent.Stop → ⊥ }
        ensures seen { self.new ≡ noted result (Gave result) self.old }
    {
        self.drain();
        if self.is_nonblocking {
            self.next_at_once()
        } else {
            self.next_in_time()
        }
    }

    fn set_nonblocking(&mut self, is_nonblocking: bool) {
        self.is_nonblocking = is_nonblocking;
    }

    fn put(&mut self, channel: u64, piece: &[u8]) -> Put {
        let written = match self.lines.iter().find(|line| line.channel == channel) {
            Some(line) => {
                let mut writer = &line.stream;
                writer.write(piece)
            }
            None => Err(io::Error::from(ErrorKind::NotConnected)),
        };
        match written {
            Ok(count) => Put::Took(count),
            Err(error) if is_passing(&error) => Put::Took(0),
            Err(_) => {
                self.faults = self.faults.saturating_add(1);
                Put::Lost
            }
        }
    }

    /// The peer is sent what was put and then the end. What it still sends is dropped, for 2 seconds at most.
    fn shut(&mut self, channel: u64) -> Result<(), AllocError> {
        if let Some(at) = self.lines.iter().position(|line| line.channel == channel) {
            let line = self.lines.remove(at);
            self.end(line);
        }
        Ok(())
    }
}
