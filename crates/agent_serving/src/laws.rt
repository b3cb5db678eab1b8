//! The laws of a served agent, whatever bytes come.
ghost use Rattle.agent_serving.specs.Apart.{EachIsGivenItsOwn, OneHistoryServesTheSame};
ghost use Rattle.agent_serving.specs.Left.{GoesOnWhileIdle, LeavesNothing};
ghost use Rattle.agent_serving.specs.Served.{ServesAnAgent};

/// The law that what is served is an agent, whatever its images and whatever came, where each connection has a channel
/// of its own: some calls of a new agent make it, and what is queued for each wire is what it gave out there in them, or for a channel that it refused
/// the end of the stream alone. The history of these calls is legal; and what was given out on a channel, and
/// what is still to be given out, flow control and the end of the stream aside, is what the history tells it, each
/// answer under the token of its command.
pub fn what_is_served_is_an_agent()
    ensures { ServesAnAgent }
{}

/// The laws that one wire touches another by the history of the target alone, whatever came over either.
///
/// `own`: in the calls that made what is served, what was given out on a channel and what is still to be given out, flow
/// control and the end of the stream aside, is a function of the history and of the tokens of the commands that were taken
/// from it.
///
/// `same`: of any two served agents with the same images, where the histories of these calls are the same, a channel is
/// live in both or in neither, the same commands were taken from it, and where these had the same tokens the same is given
/// out on it.
pub fn wires_touch_by_the_history_alone()
    ensures own { EachIsGivenItsOwn }
    ensures same { OneHistoryServesTheSame }
{}

/// The law that after any events that can come, of each channel whose end wasn't taken, no message can be taken on it,
/// and none waits; nothing that came behind it can be given, and nothing waits; and what the agent has for
/// it is queued. Only where the agent is full, and takes no further input, do messages and pieces wait. By `Idle`
/// 256 instructions are executed, or no thread runs any more, or the agent is full.
pub fn nothing_is_left_to_do()
    ensures lines { LeavesNothing }
    ensures idle { GoesOnWhileIdle }
{}
