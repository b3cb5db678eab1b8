//! The laws of what comes through a way, and of how its ends close.
ghost use Rattle.chain_through.specs.Endings.{AnsweredIsSound, AskedIsSound, ComesToSoundEnds};
ghost use Rattle.chain_through.specs.Through.{ComesThrough};

/// The law of what goes up a way of any length and comes down it, at one moment.
///
/// What its client gives, flow control and the end of the stream aside, is a Hello and fewer than 2^64 commands; what the agent
/// says asks nothing, has a position in each message, and tells the commands that came up to it rightly. Then all value-adds
/// together tell the client rightly too: each message is that of a command of the client, its position doesn't go back, what it
/// teaches is true of the target at its position, and an answer to a storable command, from whichever store, is what the target
/// answers there. So is each value-add told rightly from above. What a bound value-add keeps is true of the target at the
/// position of the last message that it took. (What is said of the target holds where its images are of bytes.)
///
/// Where all value-adds are bound the commands that go up the last hop are, in order and with their data and their marks, those
/// that the client sent behind the ones that the value-adds answered themselves before, but for some storable ones; and but for
/// answers to storable commands the messages that come down behind the value-adds' own are, in order, a front of what the agent
/// said, and all of it where each value-add took all that was said above it. Where one isn't bound nothing goes up the last hop,
/// and nothing comes down but what the value-adds say themselves.
pub fn what_comes_through()
    ensures { ComesThrough }
{}

/// The law that no end of a way closes by a fault of its other side, and of the end of the stream that comes down it, at one
/// moment.
///
/// What its client gives, flow control and the end of the stream aside, is a Hello and fewer than 2^64 commands; what the agent
/// says asks nothing, has a position in each message, begins with a Hello and tells the commands that came up to it rightly, and
/// it ends its stream only where it says nothing. Then neither end of any value-add closes by a fault of a message or of the
/// stream. What comes down to the client can be read, begins with a Hello and answers commands that it sent, each once. It has
/// the end of the stream only where the agent gave that to the client itself, or where the bytes above a value-add ended without
/// it.
pub fn no_fault_comes_through()
    ensures { ComesToSoundEnds }
{}

/// The law of two kinds of ends that close by no fault of their other side, whatever is called of them.
///
/// `answered`: one to which a Hello comes, and then events, and progress and answers to commands that it sent, each of which is
/// answered once, in any order.
///
/// `asked`: one to which a Hello and commands come.
pub fn what_is_answered_once_is_sound<T>()
    ensures answered { AnsweredIsSound T }
    ensures asked { AskedIsSound T }
{}
