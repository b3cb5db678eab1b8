//! One channel under its number.
ghost use Rattle.std.specs.Prelude.{◌≡◌, ◌≤◌, ◌+◌, IfOk, OnOk, length};
ghost use Rattle.channel_core.specs.Closing.{closed_own};
ghost use Rattle.channel_core.specs.Receiving.{delivered as end_delivered};
ghost use Rattle.channel_core.specs.Sending.{queued};
ghost use Rattle.tcf_message.specs.Message.{IsWellFormed, event, most_body};
ghost use Rattle.channel_list.specs.Channels.{is_kept, is_open, left, new_channel, told, unless_closed, with_end};

use channel_core::End;
use std::alloc::{AllocError, Global};

/// A channel under its number. No commands are sent on it, so its end's tags say nothing.
#[derive(Drop)]
pub struct Channel {
    pub number: u64,
    pub end: End<()>,
}

/// A channel that opens, with a Hello of this data, and the mark of that, to be sent.
pub fn new_channel(
    alloc: Global,
    number: u64,
    hello: &[u8],
    mark: Option<u64>,
) -> Result<Channel, AllocError>
    requires { 12 + length hello.now ≤ most_body }
    ensures { IfOk result (λ channel. channel ≡ new_channel number hello.now mark) }
{
    Ok(Channel {
        number,
        end: End::new(alloc, hello, mark)?,
    })
}

impl Channel {
    /// Whether the channel is live.
    #[tactic(auto, unfolding(crate::specs::Channels::is_open))]
    pub fn is_open(&self) -> bool
        ensures { result ≡ is_open self.now }
    {
        !self.end.state().is_closed()
    }

    /// Whether it is live, or something is still to be sent.
    #[tactic(auto, unfolding(crate::specs::Channels::is_kept))]
    pub fn is_kept(&self) -> bool
        ensures { result ≡ is_kept self.now }
    {
        self.is_open() || self.end.has_queued()
    }

    /// Bytes came with this mark, if it is live.
    #[tactic(auto, unfolding(crate::specs::Channels::is_open))]
    pub fn come(&mut self, piece: &[u8], mark: Option<u64>) -> Result<(), AllocError>
        ensures { OnOk result (self.new ≡ with_end (unless_closed (end_delivered piece.now mark) self.old.end) self.old) }
    {
        if self.is_open() {
            self.end.deliver(piece, mark)?;
        }
        Ok(())
    }

    /// The channel hears an event, if it is live.
    pub fn hear(
        &mut self,
        service: &[u8],
        name: &[u8],
        body: &[u8],
        mark: Option<u64>,
    ) -> Result<(), AllocError>
        requires { IsWellFormed (event service.now name.now body.now) }
        ensures { OnOk result (self.new ≡ told (event service.now name.now body.now) mark self.old) }
    {
        self.end.send_event(service, name, body, mark)
    }

    /// The channel is closed by this side.
    pub fn leave(&mut self)
        ensures { self.new ≡ left self.old }
    {
        self.end.close();
    }
}
