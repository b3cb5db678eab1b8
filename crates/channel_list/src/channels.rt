//! The channels that are live or of which something is still to be sent.
ghost use Rattle.std.specs.Borrow.{sem};
ghost use Rattle.std.specs.Prelude.{◌≡◌, ◌++◌, ◌∷◌, [], ◌<◌, IfOk, IfSome, OnOk, filter, length, option_map};
ghost use Rattle.tcf_message.specs.Message.{IsWellFormed, event};
ghost use Rattle.channel_list.specs.Channels.{all_left, channel_at, is_kept, live_count, place_of, told_to_all};

use crate::channel::Channel;
use std::alloc::{AllocError, Global};
use std::marker::Model;

/// Channels in the order of their opening. Contracts see the list.
#[derive(Drop)]
pub struct Channels {
    list: Vec<Channel>,
}

impl Model for Channels {
    ghost use Rattle.std.specs.Prelude.{List};
    ghost use Rattle.channel_list.specs.declared.channel.Channel.{Channel};

    ghost Value = { List Channel };

    ghost view = { λ c. c.list.items };
}

impl Channels {
    ghost use Rattle.channel_list.specs.Lending.{LendsChannel};

    /// No channels.
    pub fn new(alloc: Global) -> Self
        ensures { result ≡ [] }
    {
        Channels {
            list: Vec::new(alloc),
        }
    }

    /// How many are live.
    pub fn live_count(&self) -> usize
        ensures { result ≡ live_count self.now }
    {
        live_count(&self.list)
    }

    /// Puts a channel last, and forgets those that are closed and of which nothing is still to be sent.
    pub fn open(&mut self, channel: Channel) -> Result<(), AllocError>
        ensures { OnOk result (self.new ≡ filter is_kept self.old ++ channel ∷ []) }
    {
        forget_done(&mut self.list);
        self.list.push(channel)?;
        Ok(())
    }

    /// The channel of this number; `None` exactly where there is none.
    pub fn find(&self, number: u64) -> Option<&Channel>
        ensures { option_map (λ c. c.now) result ≡ channel_at (place_of number self.now) self.now }
    {
        let place = place_of(&self.list, number)?;
        self.list.get(place)
    }

    /// The channel of this number, to be changed; `None` exactly where there is none. What is written changes this one
    /// channel.
    pub fn find_mut(&mut self, number: u64) -> Option<&mut Channel>
        ensures* writes_back { sem 𝓛 (LendsChannel self.entry number result) }
        ensures value { option_map (λ c. c.now) result ≡ channel_at (place_of number self.old) self.old }
    {
        let place = place_of(&self.list, number)?;
        self.list.get_mut(place)
    }

    /// Every live channel hears this event.
    pub fn tell(
        &mut self,
        service: &[u8],
        name: &[u8],
        body: &[u8],
        mark: Option<u64>,
    ) -> Result<(), AllocError>
        requires { IsWellFormed (event service.now name.now body.now) }
        ensures { OnOk result (self.new ≡ told_to_all (event service.now name.now body.now) mark self.old) }
    {
        tell_each(&mut self.list, service, name, body, mark)
    }

    /// Every live channel is closed by this side.
    pub fn leave(&mut self)
        ensures { self.new ≡ all_left self.old }
    {
        leave_each(&mut self.list);
    }

    /// Forgets all of them.
    pub fn clear(&mut self)
        ensures { self.new ≡ [] }
    {
        self.list.clear();
    }
}

/// The place of the channel of this number.
fn place_of(channels: &[Channel], number: u64) -> Option<usize>
    ensures { result ≡ place_of number channels.now }
{
    channels.iter().position(|channel| channel.number == number)
}

/// How many of these channels are live.
fn live_count(channels: &[Channel]) -> usize
    ensures { result ≡ live_count channels.now }
{
    let mut live = 0;
    for channel in channels {
        if channel.is_open() {
            live += 1;
        }
    }
    live
}

fn forget_done(channels: &mut Vec<Channel>)
    ensures { channels.new.items ≡ filter is_kept channels.old.items }
{
    channels.retain(|channel| channel.is_kept());
}

#[tactic(auto, using(crate::proofs::Told::one_more))]
fn tell_each(
    channels: &mut Vec<Channel>,
    service: &[u8],
    name: &[u8],
    body: &[u8],
    mark: Option<u64>,
) -> Result<(), AllocError>
    requires { IsWellFormed (event service.now name.now body.now) }
    ensures { OnOk result (channels.new.items ≡ told_to_all (event service.now name.now body.now) mark channels.old.items) }
{
    for channel in channels.iter_mut() {
        channel.hear(service, name, body, mark)?;
    }
    Ok(())
}

#[tactic(auto, using(crate::proofs::Told::one_more))]
fn leave_each(channels: &mut Vec<Channel>)
    ensures { channels.new.items ≡ all_left channels.old.items }
{
    for channel in channels.iter_mut() {
        channel.leave();
    }
}
