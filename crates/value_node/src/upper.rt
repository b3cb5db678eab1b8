//! The upper end of a value-add, which knows how many barriers are pending.
ghost use Rattle.std.specs.Prelude.{◌≡◌, ◌≢◌, ◌≤◌, ◌+◌, false, true, not, length, option_map, slice_get, drop, Some, None, Ok, IfErr, IfOk, IfSome, OnErr, OnOk};
ghost use Rattle.channel_core.specs.Beginning.{new_end, tag_of};
ghost use Rattle.channel_core.specs.Closing.{closed_own};
ghost use Rattle.channel_core.specs.EndValue.{unless_spent};
ghost use Rattle.channel_core.specs.Receiving.{delivered, ended, waiting_in};
ghost use Rattle.channel_core.specs.Sending.{commanded, queued, refusal_to};
ghost use Rattle.channel_core.specs.Taking.{next_taken};
ghost use Rattle.tcf_message.specs.Message.{HasNoZero, IsWellFormed, most_body, not_known};
ghost use Rattle.value_node.specs.Barriers.{is_barred, is_barrier_done};

use crate::forwarded::Forwarded;
use channel_core::{End, EndState, Outgoing, Refused, SendRefusal, Taken};
use std::alloc::{AllocError, Global};
use std::marker::Model;

/// The end towards the agent. Contracts see the end.
#[derive(Drop)]
pub struct Upper {
    end: End<Forwarded>,
    /// How many of the pending commands are barriers.
    barriers: usize,
}

impl Model for Upper {
    ghost use Rattle.channel_core.specs.EndValue.{EndValue};
    ghost use Rattle.value_node.specs.ForwardedValue.{ForwardedValue};

    ghost Value = { EndValue ForwardedValue };

    ghost use Rattle.std.specs.Prelude.{◌≡◌, false};
    ghost use Rattle.value_node.specs.Barriers.{barriers_in};

    ghost view = { λ u. u.end };

    ghost invariant = { λ u. u.end.is_spent ≡ false → u.barriers ≡ barriers_in u.end.pending };
}

impl Upper {
    /// Begins with its Hello to be sent.
    pub fn new(alloc: Global, hello: &[u8]) -> Result<Upper, AllocError>
        requires { 12 + length hello.now ≤ most_body }
        ensures { IfOk result (λ e. e ≡ new_end hello.now None) }
    {
        Ok(Upper {
            end: End::new(alloc, hello, None)?,
            barriers: 0,
        })
    }

    /// Where it stands.
    pub fn state(&self) -> EndState
        ensures { result ≡ self.now.state }
    {
        self.end.state()
    }

    /// How many commands are pending.
    pub fn pending(&self) -> usize
        ensures { result ≡ length self.now.pending }
    {
        self.end.pending()
    }

    /// Whether a barrier is pending.
    pub fn is_barred(&self) -> bool
        requires usable { self.now.is_spent ≡ false }
        ensures { result ≡ is_barred self.now.pending }
    {
        self.barriers != 0
    }

    /// What is kept of the pending command with this token.
    pub fn tag(&self, token: u64) -> Option<&Forwarded>
        ensures { option_map (λ tag. tag.now) result ≡ tag_of token self.now.pending }
    {
        self.end.tag(token)
    }

    /// How many entries stand in its inbox.
    pub fn waiting(&self) -> usize
        ensures { result ≡ waiting_in self.now }
    {
        self.end.waiting()
    }

    /// The next bytes came.
    #[tactic(auto, using(crate::proofs::Pending::delivered_counts))]
    pub fn deliver(&mut self, piece: &[u8], mark: Option<u64>) -> Result<(), AllocError>
        ensures delivered { OnOk result (self.new ≡ delivered piece.now mark self.old) }
        ensures usable { OnOk result (self.new.is_spent ≡ false) }
    {
        self.end.deliver(piece, mark)
    }

    /// The bytes have ended.
    pub fn ended(&mut self)
        ensures { self.new ≡ unless_spent self.old self.old (ended self.old) }
    {
        self.end.ended();
    }

    /// Ends its stream.
    pub fn close(&mut self)
        ensures { self.new ≡ unless_spent self.old self.old (closed_own self.old) }
    {
        self.end.close();
    }

    /// Takes what it is to send next.
    pub fn take_out(&mut self) -> Option<Outgoing>
        ensures taken { result ≡ unless_spent self.old None (slice_get self.old.queued 0) }
        ensures after { self.new ≡ unless_spent self.old self.old (record self.old { queued = drop 1 self.old.queued }) }
    {
        self.end.take_out()
    }

    /// Sends a command. Before the Hello, after a redirect and under a level above 0 it is held. A refused command changes
    /// nothing, but for want of memory.
    pub fn send_command(
        &mut self,
        service: &[u8],
        name: &[u8],
        body: &[u8],
        forwarded: Forwarded,
        mark: Option<u64>,
    ) -> Result<(), SendRefusal>
        requires service { HasNoZero service.now }
        requires name { HasNoZero name.now }
        ensures sent { OnOk result (self.new ≡ commanded service.now name.now body.now forwarded mark self.old) }
        ensures free { OnOk result (refusal_to service.now name.now body.now self.old ≡ None) }
        ensures due { IfErr result (λ why. why ≢ SendRefusal.NoMemory → refusal_to service.now name.now body.now self.old ≡ Some why) }
        ensures kept { IfErr result (λ why. why ≢ SendRefusal.NoMemory → self.new ≡ self.old) }
        ensures usable { OnOk result (self.new.is_spent ≡ false) }
    {
        let is_barrier = forwarded.is_barrier();
        match self.end.send_command(service, name, body, forwarded, mark) {
            Ok(_token) => {
                if is_barrier {
                    self.barriers += 1;
                }
                Ok(())
            }
            Err(refused) => Err(why_of(refused)),
        }
    }

    /// Takes the oldest entry of its inbox.
    pub fn next_message(&mut self) -> Result<Option<Taken<Forwarded>>, AllocError>
        ensures taken { IfOk result (λ taken. (taken, self.new) ≡ next_taken self.old) }
        ensures idle { self.old.is_spent ≡ false → waiting_in self.old ≡ 0 → result ≡ Ok None }
        ensures usable { OnOk result (self.new.is_spent ≡ false) }
    {
        let taken = self.end.next_message()?;
        if is_barrier_done(&taken) {
            self.barriers -= 1;
        }
        Ok(taken)
    }

    /// Answers a command from above, which isn't recognised.
    pub fn send_unknown(&mut self, token: &[u8]) -> Result<(), AllocError>
        requires { IsWellFormed (not_known token.now) }
        ensures sent { OnOk result (self.new ≡ queued (not_known token.now) None self.old) }
        ensures usable { OnOk result (self.new.is_spent ≡ false) }
    {
        self.end.send_unknown(token, None)
    }
}

/// Why a command wasn't accepted; what was kept of it is dropped.
fn why_of(refused: Refused<Forwarded>) -> SendRefusal
    ensures { result ≡ refused.why }
{
    refused.why
}

/// Whether what was taken is the final answer to a barrier.
fn is_barrier_done(taken: &Option<Taken<Forwarded>>) -> bool
    ensures { result ≡ is_barrier_done taken.now }
{
    match taken {
        Some(Taken::Final(forwarded, _)) => forwarded.is_barrier(),
        _ => false,
    }
}
