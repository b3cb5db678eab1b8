//! One entry is taken from a side of a value-add.
ghost use Rattle.std.specs.Prelude.{◌≡◌, IfOk, Ok, OnOk, option_map};
ghost use Rattle.tcf_message.specs.Message.{HasNoZero, IsToken, IsWellFormed, command, reading};
ghost use Rattle.value_node.specs.Own.{Fits, IsSendable};
ghost use Rattle.value_node.specs.Passing.{not_recognised};
ghost use Rattle.value_node.specs.Usable.{IsUsable};
ghost use Rattle.value_node.specs.Value.{TakesNothing, answered, answered_stored, asked, asked_bound, before_hello, command_of, ended_in, event_taken, final_taken, hello_taken, is_free_to_answer, progress_taken, redirect_answered, sent_above, takes_below, took_above, took_below, turned_above, turned_at, turned_below, unbound_again};
ghost use Rattle.value_node.specs.declared.states.Side.TheVariants.{Above, Below};

use crate::forwarded::Forwarded;
use crate::own::{Own, own_reply, redirect_done, redirect_failed};
use crate::relay::Relay;
use crate::states::{Bind, Side, ValueTurn};
use channel_core::{Incoming, SendRefusal, Taken};
use command_tables::{Reading, read_command};
use std::alloc::{AllocError, Global};
use tcf_message::{Message, read};
use tcf_outside::Octets;
use tcf_values::Command;

/// How many commands can be pending above.
const MOST_PENDING: usize = 1024;

impl Relay {
    /// Takes the oldest entry of a side's inbox.
    pub fn turn(&mut self, alloc: Global, side: Side) -> Result<ValueTurn, AllocError>
        requires usable { IsUsable self.old }
        ensures turned { IfOk result (λ turn. (turn, self.new) ≡ turned_at side self.old) }
        ensures idle { TakesNothing side self.old → result ≡ Ok ValueTurn.Nothing }
        ensures usable { OnOk result (IsUsable self.new) }
    {
        match side {
            Side::Below => self.turn_below(alloc),
            Side::Above => self.turn_above(alloc),
        }
    }

    // ---- from below

    #[tactic(auto, unfolding(crate::specs::Value::turned_below))]
    fn turn_below(&mut self, alloc: Global) -> Result<ValueTurn, AllocError>
        requires usable { IsUsable self.old }
        ensures turned { IfOk result (λ turn. (turn, self.new) ≡ turned_below self.old) }
        ensures idle { TakesNothing Below self.old → result ≡ Ok ValueTurn.Nothing }
        ensures usable { OnOk result (IsUsable self.new) }
    {
        if !self.takes_below() {
            return Ok(ValueTurn::Nothing);
        }
        match self.lower.next_message()? {
            Some(what) => self.take_below(alloc, what),
            None => Ok(ValueTurn::Nothing),
        }
    }

    /// Whether something may be taken from below.
    fn takes_below(&self) -> bool
        ensures { result ≡ takes_below self.now.bind self.now.upper }
    {
        match self.bind {
            Bind::Unbound => true,
            Bind::Bound => match &self.upper {
                Some(upper) => upper.pending() < MOST_PENDING,
                None => false,
            },
            Bind::Opening | Bind::Closed => false,
        }
    }

    fn take_below(&mut self, alloc: Global, what: Taken<()>) -> Result<ValueTurn, AllocError>
        requires usable { IsUsable self.old }
        ensures took { IfOk result (λ turn. (turn, self.new) ≡ took_below what self.old) }
        ensures usable { OnOk result (IsUsable self.new) }
    {
        match what {
            Taken::Command(incoming) => self.ask(alloc, &incoming),
            Taken::Closed(_) => {
                self.close();
                Ok(ValueTurn::Took)
            }
            Taken::Hello(_) | Taken::Event(_) | Taken::Progress(..) | Taken::Final(..) => {
                Ok(ValueTurn::Took)
            }
        }
    }

    /// A command came from below.
    fn ask(&mut self, alloc: Global, incoming: &Incoming) -> Result<ValueTurn, AllocError>
        requires usable { IsUsable self.old }
        ensures asked { IfOk result (λ turn. (turn, self.new) ≡ asked (reading incoming.now.raw) incoming.now.mark self.old) }
        ensures usable { OnOk result (IsUsable self.new) }
    {
        let Ok(
            Message::Command {
                token,
                service,
                name,
                body,
            },
        ) = read(incoming.raw.as_slice())
        else {
            return Ok(ValueTurn::Took);
        };
        match self.bind {
            Bind::Unbound => {
                let own = own_reply(alloc, &self.peer, service, name, body)?;
                self.answer(alloc, token, own)
            }
            Bind::Bound => {
                self.ask_bound(alloc, token, service, name, body, incoming.mark)?;
                Ok(ValueTurn::Took)
            }
            Bind::Opening | Bind::Closed => Ok(ValueTurn::Took),
        }
    }

    /// Answers a command itself, or begins a redirect.
    fn answer(&mut self, alloc: Global, token: &[u8], own: Own) -> Result<ValueTurn, AllocError>
        requires usable { IsUsable self.old }
        requires token { IsToken token.now }
        requires sendable { IsSendable own }
        ensures answered { IfOk result (λ turn. (turn, self.new) ≡ answered token.now own self.old) }
        ensures usable { OnOk result (IsUsable self.new) }
    {
        match own {
            Own::Unknown => {
                self.lower.send_unknown(token, None)?;
                Ok(ValueTurn::Took)
            }
            Own::Result(body) => {
                self.lower.send_answer(token, body.as_slice(), None)?;
                Ok(ValueTurn::Took)
            }
            Own::Connect => {
                self.redirect = Some(Octets::from_slice(alloc, token)?);
                self.bind = Bind::Opening;
                Ok(ValueTurn::Connect)
            }
        }
    }

    /// Whether the store may answer: while no barrier is pending above.
    fn is_free_to_answer(&self) -> bool
        requires usable { IsUsable self.now }
        ensures { result ≡ is_free_to_answer self.now.upper }
    {
        match &self.upper {
            Some(upper) => !upper.is_barred(),
            None => false,
        }
    }

    /// Answers a command from the store, or sends it above.
    #[tactic(auto, using(crate::proofs::AskedOfStore::asked_is))]
    fn ask_bound(
        &mut self,
        alloc: Global,
        token: &[u8],
        service: &[u8],
        name: &[u8],
        body: &[u8],
        mark: Option<u64>,
    ) -> Result<(), AllocError>
        requires usable { IsUsable self.old }
        requires formed { IsWellFormed (command token.now service.now name.now body.now) }
        ensures asked { OnOk result (self.new ≡ asked_bound token.now service.now name.now body.now mark self.old) }
        ensures usable { OnOk result (IsUsable self.new) }
    {
        let command = command_of(alloc, service, name, body)?;
        if self.answer_stored(alloc, token, &command)? {
            return Ok(());
        }
        let forwarded = Forwarded::new(alloc, token, command)?;
        self.forward(service, name, body, forwarded, mark)
    }

    /// Answers a command from the store, where that may answer and has all of it. Answers whether it did.
    fn answer_stored(
        &mut self,
        alloc: Global,
        token: &[u8],
        command: &Option<Command>,
    ) -> Result<bool, AllocError>
        requires usable { IsUsable self.old }
        requires token { IsToken token.now }
        ensures answered { IfOk result (λ answered. (answered, self.new) ≡ answered_stored token.now command.now self.old) }
        ensures usable { OnOk result (IsUsable self.new) }
    {
        if !self.is_free_to_answer() {
            return Ok(false);
        }
        match self.store.answer(alloc, command)? {
            Some(data) => {
                self.lower
                    .send_answer(token, data.as_slice(), self.store.mark())?;
                Ok(true)
            }
            None => Ok(false),
        }
    }

    /// Sends a command above. Where the upper end has no token left, both sides are closed.
    fn forward(
        &mut self,
        service: &[u8],
        name: &[u8],
        body: &[u8],
        forwarded: Forwarded,
        mark: Option<u64>,
    ) -> Result<(), AllocError>
        requires usable { IsUsable self.old }
        requires service { HasNoZero service.now }
        requires name { HasNoZero name.now }
        ensures forwarded { OnOk result (self.new ≡ sent_above self.old.upper service.now name.now body.now forwarded mark self.old) }
        ensures usable { OnOk result (IsUsable self.new) }
    {
        let Some(upper) = &mut self.upper else {
            self.close();
            return Ok(());
        };
        match upper.send_command(service, name, body, forwarded, mark) {
            Ok(()) => Ok(()),
            Err(SendRefusal::NoMemory) => Err(AllocError),
            Err(_) => {
                self.close();
                Ok(())
            }
        }
    }

    // ---- from above

    #[tactic(auto, unfolding(crate::specs::Value::turned_above))]
    fn turn_above(&mut self, alloc: Global) -> Result<ValueTurn, AllocError>
        requires usable { IsUsable self.old }
        ensures turned { IfOk result (λ turn. (turn, self.new) ≡ turned_above self.old) }
        ensures idle { TakesNothing Above self.old → result ≡ Ok ValueTurn.Nothing }
        ensures usable { OnOk result (IsUsable self.new) }
    {
        if self.bind == Bind::Closed {
            return Ok(ValueTurn::Nothing);
        }
        let Some(upper) = &mut self.upper else {
            return Ok(ValueTurn::Nothing);
        };
        match upper.next_message()? {
            Some(what) => {
                self.take_above(alloc, what)?;
                Ok(ValueTurn::Took)
            }
            None => Ok(ValueTurn::Nothing),
        }
    }

    fn take_above(&mut self, alloc: Global, what: Taken<Forwarded>) -> Result<(), AllocError>
        requires usable { IsUsable self.old }
        ensures took { OnOk result (self.new ≡ took_above what self.old) }
        ensures usable { OnOk result (IsUsable self.new) }
    {
        match what {
            Taken::Hello(incoming) => self.greet(alloc, &incoming),
            Taken::Command(incoming) => self.refuse_above(&incoming),
            Taken::Event(incoming) => self.tell(alloc, &incoming),
            Taken::Progress(token, incoming) => self.go_on(token, &incoming),
            Taken::Final(forwarded, incoming) => self.finish(alloc, &forwarded, &incoming),
            Taken::Closed(_) => self.lose_upper(alloc),
        }
    }

    /// A Hello goes below. That of the peer of a redirect goes behind the redirect's result, and binds.
    fn greet(&mut self, alloc: Global, incoming: &Incoming) -> Result<(), AllocError>
        requires usable { IsUsable self.old }
        ensures greeted { OnOk result (self.new ≡ hello_taken incoming.now (before_hello self.old.bind self.old)) }
        ensures usable { OnOk result (IsUsable self.new) }
    {
        if self.bind == Bind::Opening {
            let body = redirect_done(alloc)?;
            self.answer_redirect(body.as_slice())?;
            self.bind = Bind::Bound;
        }
        self.store.begin();
        self.tell(alloc, incoming)
    }

    /// An event is learned, and goes below.
    fn tell(&mut self, alloc: Global, incoming: &Incoming) -> Result<(), AllocError>
        requires usable { IsUsable self.old }
        ensures told { OnOk result (self.new ≡ event_taken incoming.now self.old) }
        ensures usable { OnOk result (IsUsable self.new) }
    {
        let Ok(
            Message::Event {
                service,
                name,
                body,
            },
        ) = read(incoming.raw.as_slice())
        else {
            return Ok(());
        };
        self.store.hear_event(alloc, service, name, body)?;
        self.store.note(incoming.mark);
        self.lower.send_event(service, name, body, incoming.mark)
    }

    /// An answer is learned, and goes below under the token of its command there.
    fn finish(
        &mut self,
        alloc: Global,
        forwarded: &Forwarded,
        incoming: &Incoming,
    ) -> Result<(), AllocError>
        requires usable { IsUsable self.old }
        ensures finished { OnOk result (self.new ≡ final_taken forwarded.now incoming.now self.old) }
        ensures usable { OnOk result (IsUsable self.new) }
    {
        match read(incoming.raw.as_slice()) {
            Ok(Message::Result { body, .. }) => {
                self.store.hear_answer(alloc, forwarded.command(), body)?;
                self.store.note(incoming.mark);
                self.lower
                    .send_answer(forwarded.token(), body, incoming.mark)
            }
            Ok(Message::NotKnown { .. }) => {
                self.store.note(incoming.mark);
                self.lower.send_unknown(forwarded.token(), incoming.mark)
            }
            _ => Ok(()),
        }
    }

    /// The upper side has ended: a redirect that is being done has failed, and a bound value-add closes.
    fn lose_upper(&mut self, alloc: Global) -> Result<(), AllocError>
        requires usable { IsUsable self.old }
        ensures ended { OnOk result (self.new ≡ ended_in self.old.bind self.old) }
        ensures usable { OnOk result (IsUsable self.new) }
    {
        match self.bind {
            Bind::Opening => self.fail_redirect(alloc),
            Bind::Bound => {
                self.close();
                Ok(())
            }
            Bind::Unbound | Bind::Closed => Ok(()),
        }
    }

    /// The redirect that is being done has failed, and the value-add is unbound again.
    pub fn fail_redirect(&mut self, alloc: Global) -> Result<(), AllocError>
        requires usable { IsUsable self.old }
        ensures failed { OnOk result (self.new ≡ unbound_again self.old) }
        ensures usable { OnOk result (IsUsable self.new) }
    {
        let body = redirect_failed(alloc)?;
        self.answer_redirect(body.as_slice())?;
        self.bind = Bind::Unbound;
        Ok(())
    }

    /// Answers the redirect that is being done.
    fn answer_redirect(&mut self, body: &[u8]) -> Result<(), AllocError>
        requires usable { IsUsable self.old }
        requires fits { Fits body.now }
        ensures answered { OnOk result (self.new ≡ redirect_answered self.old.redirect body.now self.old) }
        ensures usable { OnOk result (IsUsable self.new) }
    {
        match self.redirect.take() {
            Some(token) => self.lower.send_answer(token.as_slice(), body, None),
            None => Ok(()),
        }
    }

    /// A command from above isn't recognised.
    fn refuse_above(&mut self, incoming: &Incoming) -> Result<(), AllocError>
        requires usable { IsUsable self.old }
        ensures refused { OnOk result (self.new ≡ record self.old { upper = option_map (not_recognised (reading incoming.now.raw)) self.old.upper }) }
        ensures usable { OnOk result (IsUsable self.new) }
    {
        let Some(upper) = &mut self.upper else {
            return Ok(());
        };
        match read(incoming.raw.as_slice()) {
            Ok(Message::Command { token, .. }) => upper.send_unknown(token),
            _ => Ok(()),
        }
    }

    /// Progress of the command that the upper end has pending under this token.
    fn go_on(&mut self, token: u64, incoming: &Incoming) -> Result<(), AllocError>
        requires usable { IsUsable self.old }
        ensures went_on { OnOk result (self.new ≡ progress_taken token incoming.now self.old) }
        ensures usable { OnOk result (IsUsable self.new) }
    {
        let Ok(Message::Progress { body, .. }) = read(incoming.raw.as_slice()) else {
            return Ok(());
        };
        self.store.note(incoming.mark);
        let Some(upper) = &self.upper else {
            return Ok(());
        };
        match upper.tag(token) {
            Some(forwarded) => self
                .lower
                .send_progress(forwarded.token(), body, incoming.mark),
            None => Ok(()),
        }
    }
}

/// The command of this service, this name and this data, where the tables read it.
fn command_of(
    alloc: Global,
    service: &[u8],
    name: &[u8],
    body: &[u8],
) -> Result<Option<Command>, AllocError>
    ensures { IfOk result (λ command. command ≡ command_of service.now name.now body.now) }
{
    match read_command(alloc, service, name, body)? {
        Reading::Known(command) => Ok(Some(command)),
        Reading::Unknown | Reading::Bad { .. } => Ok(None),
    }
}
