//! What is kept of a command that was sent above.
ghost use Rattle.std.specs.Prelude.{◌≡◌, IfOk};
ghost use Rattle.tcf_message.specs.Message.{IsToken};
ghost use Rattle.value_node.specs.Barriers.{is_barrier};
ghost use Rattle.value_node.specs.ForwardedValue.{tagged};

use std::alloc::{AllocError, Global};
use std::marker::Model;
use tcf_outside::Octets;
use tcf_values::{Command, is_changing};

/// A command that was sent above: the token that it has below, which is a token of 1 to 255 bytes, and the command, where
/// the tables read it.
#[derive(Drop)]
pub struct Forwarded {
    token: Octets,
    command: Option<Command>,
}

impl Model for Forwarded {
    ghost use Rattle.value_node.specs.ForwardedValue.{ForwardedValue};

    ghost Value = { ForwardedValue };

    ghost use Rattle.tcf_message.specs.Message.{IsToken};

    ghost view = { λ f. record { token = f.token; command = f.command } };

    ghost invariant = { λ f. IsToken f.token };
}

impl Forwarded {
    /// Keeps the token of a command that was taken from below, and what it was read as.
    pub fn new(alloc: Global, token: &[u8], command: Option<Command>) -> Result<Self, AllocError>
        requires { IsToken token.now }
        ensures { IfOk result (λ forwarded. forwarded ≡ tagged token.now command) }
    {
        Ok(Forwarded {
            token: Octets::from_slice(alloc, token)?,
            command,
        })
    }

    /// The token that the command has below.
    pub fn token(&self) -> &[u8]
        ensures value { result.now ≡ self.now.token }
        ensures formed { IsToken result.now }
    {
        self.token.as_slice()
    }

    /// The command, where it was read.
    pub fn command(&self) -> &Option<Command>
        ensures { result.now ≡ self.now.command }
    {
        &self.command
    }

    /// Whether nothing is answered from the store while the command is pending.
    pub fn is_barrier(&self) -> bool
        ensures { result ≡ is_barrier self.now.command }
    {
        is_barrier(&self.command)
    }
}

/// Whether a command may change the target, or wasn't read.
pub fn is_barrier(command: &Option<Command>) -> bool
    ensures { result ≡ is_barrier command.now }
{
    match command {
        Some(command) => is_changing(command),
        None => true,
    }
}
