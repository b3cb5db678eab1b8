//! A history that is done once more, input by input.
ghost use Rattle.std.specs.Prelude.{◌≡◌, ◌∷◌, [], IfNone, IfOk, IfSome, OnOk, false};
ghost use Rattle.std.specs.List.{AllByRecursion};
ghost use Rattle.journal_text.specs.Inputs.{InputIsRead};
ghost use Rattle.target_hub.specs.History.{input_after};
ghost use Rattle.target_hub.specs.HubValue.{new_target, usable};
ghost use Rattle.log_check.specs.Heard.{AreGiven, given_by};

use crate::sorts::is_through;
use std::alloc::{AllocError, Global};
use target_hub::{Done, Events, Hub, Image, Input};
use tcf_values::Duplicate;

/// What an input gives.
#[derive(Debug, Drop)]
pub(crate) enum Gives {
    /// This channel opened.
    Opens(u64),
    /// This channel executed a command, of which this came; the target alone answers it, or any peer may.
    Does {
        channel: u64,
        through: bool,
        done: Done,
    },
    /// A thread executed an instruction, where it lives and runs.
    Ticks(Option<Events>),
    /// A channel closed, and these events tell of its breakpoints.
    Closes(Events),
}

/// A copy of an image.
fn copy_of(image: &Image) -> Result<Image, AllocError>
    ensures { IfOk result (λ copy. copy ≡ image.now) }
{
    Ok(Image {
        name: image.name.copy()?,
        bytes: image.bytes.copy()?,
    })
}

/// A target with these images, to which nothing was done yet.
pub(crate) fn new_hub(alloc: Global, images: &[Image]) -> Result<Hub, AllocError>
    ensures { IfOk result (λ hub. hub ≡ usable (new_target images.now)) }
{
    let mut copies = Vec::new(alloc);
    for image in images {
        copies.push(copy_of(image)?)?;
    }
    Hub::new(alloc, copies)
}

/// Does one input.
pub(crate) fn follow(hub: &mut Hub, input: &Input) -> Result<Gives, AllocError>
    requires read { InputIsRead input.now }
    requires fresh { hub.old.is_spent ≡ false }
    ensures after { OnOk result (hub.new ≡ usable (input_after input.now hub.old.target)) }
    ensures gives { IfOk result (λ gives. gives ≡ given_by input.now hub.old.target) }
    ensures events { IfOk result AreGiven }
{
    match input {
        Input::Opened(channel) => Ok(Gives::Opens(*channel)),
        Input::Executed(channel, reading, service, name) => {
            let done = hub.execute(*channel, service.as_slice(), name.as_slice(), reading)?;
            Ok(Gives::Does {
                channel: *channel,
                through: is_through(reading),
                done,
            })
        }
        Input::Ticked(thread) => Ok(Gives::Ticks(hub.tick(*thread)?)),
        Input::Closed(channel) => Ok(Gives::Closes(hub.close(*channel)?)),
    }
}

/// The first of some inputs, and the others.
pub(crate) fn first_input(inputs: &[Input]) -> Option<(&Input, &[Input])>
    ensures some { IfSome result (λ parts. inputs.now ≡ parts.0.now ∷ parts.1.now) }
    ensures none { IfNone result (inputs.now ≡ []) }
{
    match inputs {
        [input, rest @ ..] => Some((input, rest)),
        [] => None,
    }
}
