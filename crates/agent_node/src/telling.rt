//! What the target tells goes to the channels: events to all, progress and the answer to the caller.
ghost use Rattle.std.specs.Prelude.{◌≡◌, ◌≤◌, ◌++◌, ◌∷◌, [], Some, IfOk, OnOk, decimal, length};
ghost use Rattle.channel_core.specs.Sending.{queued};
ghost use Rattle.tcf_message.specs.Message.{IsToken, IsWellFormed, event, final, not_known, progress};
ghost use Rattle.target_hub.specs.Sent.{progress_data};
ghost use Rattle.target_hub.specs.Limits.{AreEvents};
ghost use Rattle.target_hub.specs.Sendable.{AreSendable, IsSendable, IsSendableEvent};
ghost use Rattle.agent_node.specs.Channels.{answer_message, answer_queued, event_message, event_queued, progress_queued, told_all};

use channel_core::End;
use channel_list::Channels;
use reply_tables::write_event;
use std::alloc::{AllocError, Global};
use target_hub::{Answered, Done, Events};
use tcf_message::decimal_token;
use tcf_outside::Octets;

/// Every live channel hears these events, in order.
#[tactic(auto, unfolding(crate::specs::Channels::event_message))]
pub fn tell_all(
    alloc: Global,
    events: &Events,
    position: u64,
    channels: &mut Channels,
) -> Result<(), AllocError>
    requires events { AreEvents events.now }
    requires sendable { AreSendable events.now }
    ensures { OnOk result (channels.new ≡ told_all events.now position channels.old) }
{
    for event in events {
        let written = write_event(alloc, event)?;
        channels.tell(
            written.service.as_bytes(),
            written.name.as_bytes(),
            written.body.as_slice(),
            Some(position),
        )?;
    }
    Ok(())
}

/// The caller hears the progress of its command, and then the answer, under the command's token.
pub fn answer(
    alloc: Global,
    end: &mut End<()>,
    token: &[u8],
    done: &Done,
    position: u64,
) -> Result<(), AllocError>
    requires token { IsToken token.now }
    requires size { IsSendable done.now.answer }
    ensures { OnOk result (end.new ≡ answer_queued token.now done.now position end.old) }
{
    for address in &done.progress {
        let data = progress_data(alloc, *address)?;
        end.send_progress(token, data.as_slice(), Some(position))?;
    }
    match &done.answer {
        Answered::Unknown => end.send_unknown(token, Some(position)),
        Answered::Result(data) => end.send_answer(token, data.as_slice(), Some(position)),
    }
}

/// The data of progress: an address in decimal.
fn progress_data(alloc: Global, address: u32) -> Result<Octets, AllocError>
    ensures body { IfOk result (λ body. body ≡ progress_data address) }
    ensures size { IfOk result (λ body. length body ≤ 1048576) }
{
    // A law, which does nothing: the digits are a token, so they are few.
    decimal_token();
    let digits = format!(in alloc; "{address}")?;
    let mut data = Octets::from_slice(alloc, digits.as_bytes())?;
    data.push(0)?;
    Ok(data)
}
