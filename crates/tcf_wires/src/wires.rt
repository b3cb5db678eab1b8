//! The wires: the trait.
ghost use Rattle.std.specs.Prelude.{◌≡◌, ◌≤◌, Option, option_map, IfOk, IfSome, IsTrue, length};
ghost use Rattle.tcf_wires.specs.declared.call.WireCall.TheVariants.{Listened, Connected, Gave, Offered, Shut};

use crate::event::{Put, WireEvent, WireRefusal};
use std::alloc::AllocError;

/// Connections to peers, over which bytes come and go. A connection has a number, its channel, from its opening on,
/// and no other connection ever has that number.
pub trait Wires {
    ghost use Rattle.tcf_wires.specs.Event.{can_come, IsWithin};
    ghost use Rattle.tcf_wires.specs.Told.{WiresSeen, noted, noted_put, noted_shut};
    ghost use Rattle.tcf_wires.specs.Script.{Script, Answers, AnswersPut, called, connected, connect_answer, given, listen_answer, next_answer, offered, passed, passed_put, passed_shut, put_answer};

    /// The calls so far, in order, each with its arguments and its answer, where they are told; how many failed; and the
    /// least number above all that channels were given.
    ghost seen: { Self → WiresSeen };

    /// What is to come, where it is known.
    ghost script: { Self → Option Script };

    /// Listens for peers on this address, from which each makes an `Opened` of `next`. `Failed` where that can't be.
    fn listen(&mut self, address: &str) -> Result<(), WireRefusal>
        ensures answer { IfSome (script self.old) (λ s. Answers result (listen_answer s)) }
        ensures seen { seen self.new ≡ noted result (Listened address.now result) (seen self.old) }
        ensures left { script self.new ≡ option_map (passed result called) (script self.old) };

    /// Connects to this peer, and gives the number of the new channel. `Failed` where the peer can't be reached.
    fn connect(&mut self, peer: &str) -> Result<u64, WireRefusal>
        ensures answer { IfSome (script self.old) (λ s. Answers result (connect_answer (seen self.old).unused s)) }
        ensures new { IfOk result (λ channel. (seen self.old).unused ≤ channel) }
        ensures seen { seen self.new ≡ noted result (Connected peer.now result) (seen self.old) }
        ensures left { script self.new ≡ option_map (passed result connected) (script self.old) };

    /// Gives what comes next, for which it may wait. `Failed` where the system gives nothing any more.
    fn next(&mut self) -> Result<WireEvent, WireRefusal>
        ensures answer { IfSome (script self.old) (λ s. Answers result (next_answer (seen self.old).unused s)) }
        ensures can { IfOk result (λ event. IsTrue (can_come (seen self.old).unused event)) }
        ensures seen { seen self.new ≡ noted result (Gave result) (seen self.old) }
        ensures left { script self.new ≡ option_map (passed result given) (script self.old) };

    /// Says whether `next` gives `Idle` at once where nothing is there, and lets each connection have its turn once between
    /// two of them; at first it may wait for what comes. Wires that never wait needn't care.
    fn set_nonblocking(&mut self, _is_nonblocking: bool)
        ensures seen { seen self.new ≡ seen self.old }
        ensures script { script self.new ≡ script self.old }
    {}

    /// Takes some of the piece's first bytes to send them on the channel. `Lost` where the channel takes nothing any
    /// more, as one whose connection broke or that there never was.
    fn put(&mut self, channel: u64, piece: &[u8]) -> Put
        ensures answer { IfSome (script self.old) (λ s. AnswersPut result (put_answer (length piece.now) s)) }
        ensures count { IsWithin (length piece.now) result }
        ensures seen { seen self.new ≡ noted_put result (Offered channel piece.now result) (seen self.old) }
        ensures left { script self.new ≡ option_map (passed_put result offered) (script self.old) };

    /// Ends the connection of the channel, on which nothing comes from then on. A channel that there isn't is
    /// passed over.
    fn shut(&mut self, channel: u64) -> Result<(), AllocError>
        ensures seen { seen self.new ≡ noted_shut result (Shut channel) (seen self.old) }
        ensures left { script self.new ≡ option_map (passed_shut result called) (script self.old) };
}
