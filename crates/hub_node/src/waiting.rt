//! What is kept of a command that was sent above.
ghost use Rattle.std.specs.Prelude.{◌≡◌, IfOk};
ghost use Rattle.tcf_message.specs.Message.{IsToken};

use std::alloc::{AllocError, Global};
use std::marker::Model;
use tcf_outside::Octets;

/// What the upper end keeps of a command: the key of what is kept of it here, and its number among all commands that
/// were sent above. Keys are used again, and numbers never.
#[derive(Clone, Copy, Debug, PartialEq, Eq)]
pub struct Tag {
    pub key: usize,
    pub serial: u64,
}

/// A command that is pending above: its number, the lower channel that it is of, and its token there, of 1 to 255 bytes.
#[derive(Drop)]
pub struct Waiting {
    serial: u64,
    channel: u64,
    token: Octets,
}

impl Model for Waiting {
    ghost use Rattle.hub_node.specs.WaitingValue.{WaitingValue};

    ghost Value = { WaitingValue };

    ghost use Rattle.tcf_message.specs.Message.{IsToken};

    ghost view = { λ w. record { serial = w.serial; channel = w.channel; token = w.token } };

    ghost invariant = { λ w. IsToken w.token };
}

impl Waiting {
    /// Keeps the number of a command that was taken from a lower channel, and its token there.
    pub fn new(alloc: Global, serial: u64, channel: u64, token: &[u8]) -> Result<Self, AllocError>
        requires { IsToken token.now }
        ensures { IfOk result (λ w. w ≡ record { serial = serial; channel = channel; token = token.now }) }
    {
        Ok(Waiting {
            serial,
            channel,
            token: Octets::from_slice(alloc, token)?,
        })
    }

    /// Its number among all commands that were sent above.
    pub fn serial(&self) -> u64
        ensures { result ≡ self.now.serial }
    {
        self.serial
    }

    /// The lower channel that it is of.
    pub fn channel(&self) -> u64
        ensures { result ≡ self.now.channel }
    {
        self.channel
    }

    /// Its token there.
    pub fn token(&self) -> &[u8]
        ensures value { result.now ≡ self.now.token }
        ensures formed { IsToken result.now }
    {
        self.token.as_slice()
    }
}
