//! One entry is taken from a side of a hub.
ghost use Rattle.std.specs.Prelude.{ℕ, ◌≡◌, ◌≤◌, true, false, None, Some, Ok, IfOk, OnOk, length, option_map};
ghost use Rattle.channel_core.specs.Beginning.{tag_of};
ghost use Rattle.link_pool.specs.Lists.{item_of};
ghost use Rattle.service_names.specs.Commands.{name_in};
ghost use Rattle.service_names.specs.declared.commands.CommandName.TheVariants as names;
ghost use Rattle.service_names.specs.declared.commands.LocatorCommand.TheVariants as locator;
ghost use Rattle.tcf_message.specs.Message.{IsToken, IsWellFormed, command, final, most_body, not_known, progress, reading};
ghost use Rattle.hub_node.specs.Relay.{TakesNothing, answered, asked, event_told, final_told, finished, forwarded, found_by, gone, greeted, next_below, progress_told, refused_above, takes_below, told_one, took_above, took_any_below, took_below, turned_above, turned_at, turned_below};

use crate::redirect::{is_redirect, redirect_reply};
use crate::relay::Relay;
use crate::side::HubSide;
use crate::waiting::{Tag, Waiting};
use channel_core::{EndState, Incoming, SendRefusal, Taken};
use std::alloc::AllocError;
use tcf_message::{Message, read};

/// How many commands can be pending above.
const MOST_PENDING: usize = 1024;

impl Relay {
    /// Takes the oldest entry of a side's inbox. A command that is sent above is kept under a key that nothing has.
    pub fn turn(&mut self, side: HubSide) -> Result<bool, AllocError>
        ensures turned { IfOk result (λ did. (key : ℕ) × (item_of key self.old.board.lists ≡ None) × ((did, self.new) ≡ turned_at key side self.old)) }
        ensures idle { TakesNothing side self.old → result ≡ Ok false }
    {
        if self.waiting(side) == 0 {
            return Ok(false);
        }
        match side {
            HubSide::Above => {
                let did = self.turn_above()?;
                Ok(did)
            }
            HubSide::Below(j) => self.turn_below(j),
        }
    }

    // ---- from above

    #[tactic(auto, unfolding(crate::specs::Relay::turned_above))]
    fn turn_above(&mut self) -> Result<bool, AllocError>
        ensures { IfOk result (λ did. (did, self.new) ≡ turned_above self.old) }
    {
        match self.upper.next_message()? {
            Some(what) => {
                self.take_above(what)?;
                Ok(true)
            }
            None => Ok(false),
        }
    }

    #[tactic(auto, unfolding(crate::specs::Relay::took_above))]
    fn take_above(&mut self, what: Taken<Tag>) -> Result<(), AllocError>
        ensures { OnOk result (self.new ≡ took_above what self.old) }
    {
        match what {
            Taken::Hello(incoming) => self.greet(&incoming),
            Taken::Command(incoming) => self.refuse_above(&incoming),
            Taken::Event(incoming) => self.tell(&incoming),
            Taken::Progress(token, incoming) => self.go_on(token, &incoming),
            Taken::Final(tag, incoming) => self.finish(tag, &incoming),
            Taken::Closed(_) => {
                self.close();
                Ok(())
            }
        }
    }

    /// The first Hello is for the hub alone, and a later one is an event.
    #[tactic(auto, unfolding(crate::specs::Relay::greeted))]
    fn greet(&mut self, incoming: &Incoming) -> Result<(), AllocError>
        ensures { OnOk result (self.new ≡ greeted incoming.now self.old) }
    {
        if self.bound {
            return self.tell(incoming);
        }
        self.bound = true;
        Ok(())
    }

    /// A command from above isn't recognised.
    #[tactic(auto, unfolding(crate::specs::Relay::refused_above))]
    fn refuse_above(&mut self, incoming: &Incoming) -> Result<(), AllocError>
        ensures { OnOk result (self.new ≡ refused_above (reading incoming.now.raw) self.old) }
    {
        match read(incoming.raw.as_slice()) {
            Ok(Message::Command { token, .. }) => self.upper.send_unknown(token, None),
            _ => Ok(()),
        }
    }

    /// Every live lower channel hears an event.
    #[tactic(auto, unfolding(crate::specs::Relay::event_told))]
    fn tell(&mut self, incoming: &Incoming) -> Result<(), AllocError>
        ensures { OnOk result (self.new ≡ event_told incoming.now.mark (reading incoming.now.raw) self.old) }
    {
        match read(incoming.raw.as_slice()) {
            Ok(
                Message::Event {
                    service,
                    name,
                    body,
                },
            ) => self.lowers.tell(service, name, body, incoming.mark),
            _ => Ok(()),
        }
    }

    /// The channel of a command hears its progress, if it is still there.
    #[tactic(auto, unfolding(crate::specs::Relay::progress_told))]
    fn go_on(&mut self, token: u64, incoming: &Incoming) -> Result<(), AllocError>
        ensures { OnOk result (self.new ≡ progress_told (found_by (tag_of token self.old.upper.pending) self.old) incoming.now.mark (reading incoming.now.raw) self.old) }
    {
        let Some(tag) = self.upper.tag(token) else {
            return Ok(());
        };
        let Some(waiting) = self.board.find(*tag) else {
            return Ok(());
        };
        let Ok(Message::Progress { body, .. }) = read(incoming.raw.as_slice()) else {
            return Ok(());
        };
        if let Some(lower) = self.lowers.find_mut(waiting.channel()) {
            lower
                .end
                .send_progress(waiting.token(), body, incoming.mark)?;
        }
        Ok(())
    }

    /// A command has its answer, which its channel hears if it is still there.
    #[tactic(auto, unfolding(crate::specs::Relay::finished, crate::specs::Relay::final_told))]
    fn finish(&mut self, tag: Tag, incoming: &Incoming) -> Result<(), AllocError>
        ensures { OnOk result (self.new ≡ finished tag incoming.now self.old) }
    {
        match self.board.take(tag) {
            Some(waiting) => self.answer(&waiting, incoming),
            None => Ok(()),
        }
    }

    #[tactic(auto, unfolding(crate::specs::Relay::final_told))]
    fn answer(&mut self, waiting: &Waiting, incoming: &Incoming) -> Result<(), AllocError>
        ensures { OnOk result (self.new ≡ final_told (Some waiting.now) incoming.now.mark (reading incoming.now.raw) self.old) }
    {
        match read(incoming.raw.as_slice()) {
            Ok(Message::Result { body, .. }) => self.send_answer(waiting, body, incoming.mark),
            Ok(Message::NotKnown { .. }) => self.send_unknown(waiting, incoming.mark),
            _ => Ok(()),
        }
    }

    fn send_answer(
        &mut self,
        waiting: &Waiting,
        body: &[u8],
        mark: Option<u64>,
    ) -> Result<(), AllocError>
        requires { length body.now ≤ most_body }
        ensures { OnOk result (self.new ≡ told_one waiting.now (final waiting.now.token body.now) mark self.old) }
    {
        if let Some(lower) = self.lowers.find_mut(waiting.channel()) {
            lower.end.send_answer(waiting.token(), body, mark)?;
        }
        Ok(())
    }

    fn send_unknown(&mut self, waiting: &Waiting, mark: Option<u64>) -> Result<(), AllocError>
        ensures { OnOk result (self.new ≡ told_one waiting.now (not_known waiting.now.token) mark self.old) }
    {
        if let Some(lower) = self.lowers.find_mut(waiting.channel()) {
            lower.end.send_unknown(waiting.token(), mark)?;
        }
        Ok(())
    }

    // ---- from below

    /// Whether something may be taken from below.
    fn takes_below(&self) -> bool
        ensures { result ≡ takes_below self.now }
    {
        self.upper.state() == EndState::Live && self.upper.pending() < MOST_PENDING
    }

    fn turn_below(&mut self, j: u64) -> Result<bool, AllocError>
        ensures turned { IfOk result (λ did. (key : ℕ) × (item_of key self.old.board.lists ≡ None) × ((did, self.new) ≡ turned_below key j self.old)) }
        ensures idle { takes_below self.old ≡ false → result ≡ Ok false }
    {
        match self.next_below(j)? {
            Some(what) => {
                self.take_below(j, what)?;
                Ok(true)
            }
            None => Ok(false),
        }
    }

    /// Takes the oldest entry of a lower channel's inbox, where something may be taken from below.
    #[tactic(auto, unfolding(crate::specs::Relay::next_below))]
    fn next_below(&mut self, j: u64) -> Result<Option<Taken<()>>, AllocError>
        ensures next { IfOk result (λ what. (what, self.new) ≡ next_below j self.old) }
        ensures board { OnOk result (self.new.board ≡ self.old.board) }
        ensures idle { takes_below self.old ≡ false → result ≡ Ok None }
    {
        if !self.takes_below() {
            return Ok(None);
        }
        let Some(lower) = self.lowers.find_mut(j) else {
            return Ok(None);
        };
        lower.end.next_message()
    }

    #[tactic(auto, unfolding(crate::specs::Relay::took_below))]
    fn take_below(&mut self, j: u64, what: Taken<()>) -> Result<(), AllocError>
        ensures { OnOk result ((key : ℕ) × (item_of key self.old.board.lists ≡ None) × (self.new ≡ took_below key j what self.old)) }
    {
        match what {
            Taken::Command(incoming) => self.ask(j, &incoming),
            Taken::Closed(_) => {
                self.leave(j);
                Ok(())
            }
            Taken::Hello(_) | Taken::Event(_) | Taken::Progress(..) | Taken::Final(..) => Ok(()),
        }
    }

    /// The channel is closed: what comes for its commands from now on is dropped.
    #[tactic(auto, unfolding(crate::specs::Relay::gone))]
    fn leave(&mut self, j: u64)
        ensures { self.new ≡ gone j self.old }
    {
        self.board.leave(j);
    }

    /// A command came from below: the hub answers a redirect itself, and sends each other command above.
    #[tactic(auto, unfolding(crate::specs::Relay::asked))]
    fn ask(&mut self, j: u64, incoming: &Incoming) -> Result<(), AllocError>
        ensures { OnOk result ((key : ℕ) × (item_of key self.old.board.lists ≡ None) × (self.new ≡ asked key j incoming.now.mark (reading incoming.now.raw) self.old)) }
    {
        match read(incoming.raw.as_slice()) {
            Ok(
                Message::Command {
                    token,
                    service,
                    name,
                    body,
                },
            ) => {
                if is_redirect(service, name) {
                    self.answer_redirect(j, token, service, name, body)?;
                    Ok(())
                } else {
                    self.forward(j, token, service, name, body, incoming.mark)
                }
            }
            _ => Ok(()),
        }
    }

    #[tactic(auto, unfolding(crate::specs::Relay::answered))]
    fn answer_redirect(
        &mut self,
        j: u64,
        token: &[u8],
        service: &[u8],
        name: &[u8],
        body: &[u8],
    ) -> Result<(), AllocError>
        requires token { IsToken token.now }
        requires named { name_in service.now name.now ≡ Some (names.Locator locator.Redirect) }
        ensures { OnOk result (self.new ≡ answered j token.now service.now name.now body.now self.old) }
    {
        let reply = redirect_reply(self.alloc, service, name, body)?;
        if let Some(lower) = self.lowers.find_mut(j) {
            lower.end.send_answer(token, reply.as_slice(), None)?;
        }
        Ok(())
    }

    /// Sends a command above under the next token, which is its number. Where the upper end refuses it all is closed, as it
    /// is where no token is left.
    #[tactic(auto, unfolding(crate::specs::Relay::forwarded))]
    fn forward(
        &mut self,
        j: u64,
        token: &[u8],
        service: &[u8],
        name: &[u8],
        body: &[u8],
        mark: Option<u64>,
    ) -> Result<(), AllocError>
        requires { IsWellFormed (command token.now service.now name.now body.now) }
        ensures { OnOk result ((key : ℕ) × (item_of key self.old.board.lists ≡ None) × (self.new ≡ forwarded key j token.now service.now name.now body.now mark self.old)) }
    {
        if self.upper.last() == u64::MAX {
            self.close();
            return Ok(());
        }
        let serial = self.upper.last() + 1;
        let key = self.board.keep(serial, j, token)?;
        match self
            .upper
            .send_command(service, name, body, Tag { key, serial }, mark)
        {
            Ok(_) => Ok(()),
            Err(refused) => match refused.why {
                SendRefusal::NoMemory => Err(AllocError),
                _ => {
                    self.close();
                    Ok(())
                }
            },
        }
    }
}
