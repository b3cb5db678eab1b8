//! A client with its wire and the lines that are left of its script, and what each event makes of them.
ghost use Rattle.std.specs.Prelude.{◌≡◌, IfOk, None, OnOk};
ghost use Rattle.std.specs.List.{AllByRecursion};
ghost use Rattle.tcf_schedules.specs.Script.{IsFit};
ghost use Rattle.serving_wires.specs.Sending.{begun as begun_on, opened_by};
ghost use Rattle.client_node.specs.Client.{opened};
ghost use Rattle.client_serving.specs.Begun.{Tells};
ghost use Rattle.client_serving.specs.Serving.{acted, all_taken, behaviour, ended_by, heard_on, one_taken, opened_with, stopped, went_on};

use crate::end::{ClientEnd, ClientRun, cause_of};
use crate::lines::do_lines;
use crate::telling::{gather, give};
use channel_core::Cause;
use client_node::ClientNode;
use serving_wires::{Came, Sending, Served};
use std::alloc::{AllocError, Global};
use std::marker::Model;
use tcf_schedules::ScriptLine;
use tcf_wires::{WireEvent, Wires};

/// A served client. Once its run has an end it does no further line and takes no further message.
#[derive(Drop)]
pub struct Serving<'a> {
    peer: &'a str,
    channel: u64,
    client: ClientNode,
    left: &'a [ScriptLine],
    end: Option<ClientEnd>,
}

impl<'a> Model for Serving<'a> {
    ghost use Rattle.std.specs.Prelude.{Some};
    ghost use Rattle.std.specs.List.{AllByRecursion};
    ghost use Rattle.tcf_schedules.specs.Script.{IsFit};
    ghost use Rattle.client_serving.specs.ServingValue.{ServingValue};

    ghost Value = { ServingValue };

    ghost view = { λ s. record { peer = s.peer.now; channel = Some s.channel; client = s.client; left = s.left.now; end = s.end } };

    ghost invariant = { λ s. AllByRecursion IsFit s.left.now };
}

impl<'a> Serving<'a> {
    /// A client that is connected with its peer on this channel: it has opened its end, and does the first lines of the script.
    pub fn begin(
        alloc: Global,
        peer: &'a str,
        channel: u64,
        script: &'a [ScriptLine],
        sending: &mut Sending,
    ) -> Result<Serving<'a>, AllocError>
        requires { AllByRecursion IsFit script.now }
        ensures { IfOk result (λ serving. Tells (went_on (opened_with peer.now channel script.now)) serving (begun_on channel sending.old) sending.new) }
    {
        sending.begin(channel)?;
        let mut serving = Serving {
            peer,
            channel,
            client: ClientNode::new(alloc)?,
            left: script,
            end: None,
        };
        serving.open(sending)?;
        Ok(serving)
    }

    /// The client opens its end, and does the first lines.
    fn open(&mut self, sending: &mut Sending) -> Result<(), AllocError>
        requires { self.old.client.channel ≡ None }
        ensures { OnOk result (Tells (went_on (record self.old { client = opened self.old.client })) self.new sending.old sending.new) }
    {
        self.client.opened()?;
        self.go_on()?;
        self.tell(sending)
    }

    /// How the run ended, if it did.
    pub fn end(&self) -> Option<ClientEnd>
        ensures { result ≡ self.now.end }
    {
        self.end
    }

    /// The run that ended so, with the client as it stands.
    pub fn into_run(self, end: ClientEnd) -> ClientRun
        ensures end { result.end ≡ end }
        ensures client { result.client ≡ self.entry.client }
    {
        ClientRun {
            end,
            client: self.client,
        }
    }

    #[tactic(auto, unfolding(crate::specs::Serving::acted))]
    fn act(&mut self, event: WireEvent, sending: &mut Sending) -> Result<(), AllocError>
        ensures acted { OnOk result (self.new ≡ acted event self.old) }
        ensures opened { OnOk result (sending.new ≡ opened_by event sending.old) }
    {
        match event {
            WireEvent::Opened(channel) => sending.begin(channel),
            WireEvent::Piece(channel, bytes) => self.hear(channel, &Came::Piece(bytes)),
            WireEvent::Ended(channel) | WireEvent::Lost(channel) => self.hear(channel, &Came::End),
            WireEvent::Idle => Ok(()),
            WireEvent::Stop => {
                self.stop();
                Ok(())
            }
        }
    }

    /// Something came on a channel. On another one than the client's it is dropped.
    fn hear(&mut self, channel: u64, came: &Came) -> Result<(), AllocError>
        ensures { OnOk result (self.new ≡ heard_on channel came.now self.old) }
    {
        if channel != self.channel {
            return Ok(());
        }
        give(&mut self.client, came)?;
        self.take_all()
    }

    /// Takes all messages that wait.
    #[tactic(auto, using(crate::proofs::Gathering::one_more_taken))]
    fn take_all(&mut self) -> Result<(), AllocError>
        ensures { OnOk result (self.new ≡ all_taken self.old) }
    {
        let waiting = self.client.waiting();
        for counter in 0..waiting {
            self.take_one()?;
        }
        Ok(())
    }

    /// Takes a message, if the run has no end and there is one. Where the channel closes by it the run ends; else the
    /// lines that nothing holds are done.
    #[tactic(auto, unfolding(crate::specs::Serving::one_taken))]
    fn take_one(&mut self) -> Result<(), AllocError>
        ensures { OnOk result (self.new ≡ one_taken self.old) }
    {
        if self.end.is_some() || !self.client.turn()? {
            return Ok(());
        }
        match cause_of(&self.client) {
            Some(cause) => {
                self.end_by(cause);
                Ok(())
            }
            None => self.go_on(),
        }
    }

    /// Nothing more comes, and a run that has no end yet ends.
    fn stop(&mut self)
        ensures { self.new ≡ stopped self.old }
    {
        if self.end.is_none() {
            self.end_by(Cause::Ended);
        }
    }

    /// The run ends for this cause.
    fn end_by(&mut self, cause: Cause)
        ensures { self.new ≡ ended_by cause self.old }
    {
        self.end = Some(ClientEnd::Ended { cause });
    }

    /// Does the lines that nothing holds. Once none is left and nothing is pending, the client closes, and the run is done.
    #[tactic(auto, unfolding(crate::specs::Serving::went_on))]
    fn go_on(&mut self) -> Result<(), AllocError>
        ensures { OnOk result (self.new ≡ went_on self.old) }
    {
        self.left = do_lines(&mut self.client, self.left)?;
        if self.left.is_empty() && self.client.pending() == 0 {
            self.client.close()?;
            self.end = Some(ClientEnd::Done);
        }
        Ok(())
    }

    /// Queues what the client tells; behind a closed channel nothing more will be queued.
    fn tell(&mut self, sending: &mut Sending) -> Result<(), AllocError>
        ensures { OnOk result (Tells self.old self.new sending.old sending.new) }
    {
        gather(&mut self.client, self.channel, sending)?;
        if cause_of(&self.client).is_some() {
            sending.close(self.channel);
        }
        Ok(())
    }
}

impl<'a> Served for Serving<'a> {
    ghost behaviour = { behaviour };

    /// An event comes: all messages that can be taken are taken, after each of them the lines that nothing holds are done,
    /// and what the client tells is queued.
    fn heed<W: Wires>(
        &mut self,
        event: WireEvent,
        sending: &mut Sending,
        wires: &mut W,
    ) -> Result<(), AllocError> {
        self.act(event, sending)?;
        self.tell(sending)
    }
}
