//! Whether each input can come after those before it.
ghost use Rattle.std.specs.Prelude.{◌≡◌, ◌↔◌, ◌||◌, ℕ, OnOk, IfOk, true, false};
ghost use Rattle.std.specs.BTreeSet.{contains};
ghost use Rattle.std.specs.List.{AllByRecursion};
ghost use Rattle.std.specs.Ordering.{nat_cmp};
ghost use Rattle.journal_text.specs.Inputs.{InputIsRead};
ghost use Rattle.target_hub.specs.History.{IsLegal, closes, input_after, opens};
ghost use Rattle.target_hub.specs.HubValue.{usable};
ghost use Rattle.log_check.specs.Seen.{IsRunning, admits};

use crate::replay::{Gives, first_input, follow, new_hub};
use crate::sets::see;
use std::alloc::{AllocError, Global};
use std::collections::BTreeSet;
use target_hub::{Hub, Image, Input};

/// Whether the input's channel lets it come.
fn admits(opened: &BTreeSet<u64>, closed: &BTreeSet<u64>, input: &Input) -> bool
    ensures { result ≡ admits opened.now closed.now input.now }
{
    match input {
        Input::Opened(channel) => !opened.contains(channel),
        Input::Executed(channel, _, _, _) => opened.contains(channel) && !closed.contains(channel),
        Input::Ticked(_) => true,
        Input::Closed(channel) => opened.contains(channel) && !closed.contains(channel),
    }
}

/// Notes the channel that the input opens or closes.
#[tactic(auto, using(crate::proofs::Legality::or_nothing))]
fn note(
    opened: &mut BTreeSet<u64>,
    closed: &mut BTreeSet<u64>,
    input: &Input,
) -> Result<(), AllocError>
    ensures opened { OnOk result ((q : ℕ) → contains nat_cmp opened.new q ≡ (contains nat_cmp opened.old q || opens q input.now)) }
    ensures closed { OnOk result ((q : ℕ) → contains nat_cmp closed.new q ≡ (contains nat_cmp closed.old q || closes q input.now)) }
{
    match input {
        Input::Opened(channel) => see(opened, *channel),
        Input::Closed(channel) => see(closed, *channel),
        _ => Ok(()),
    }
}

/// Does the input, and tells whether the thread that it ticks, if it does, lives and runs.
fn does(hub: &mut Hub, input: &Input) -> Result<bool, AllocError>
    requires read { InputIsRead input.now }
    requires fresh { hub.old.is_spent ≡ false }
    ensures after { OnOk result (hub.new ≡ usable (input_after input.now hub.old.target)) }
    ensures runs { IfOk result (λ runs. (runs ≡ true) ↔ IsRunning input.now hub.old.target) }
{
    match follow(hub, input)? {
        Gives::Ticks(told) => Ok(told.is_some()),
        _ => Ok(true),
    }
}

/// Whether each input can come after those before it.
#[tactic(auto, using(crate::proofs::Legality::legal_first, crate::proofs::Legality::legal_next, crate::proofs::Legality::legal_refused, crate::proofs::Legality::legal_idle, crate::proofs::Legality::legal_last))]
pub(crate) fn is_legal(
    alloc: Global,
    images: &[Image],
    inputs: &[Input],
) -> Result<bool, AllocError>
    requires { AllByRecursion InputIsRead inputs.now }
    ensures { IfOk result (λ holds. (holds ≡ true) ↔ IsLegal images.now inputs.now) }
{
    let mut hub = new_hub(alloc, images)?;
    let mut opened = BTreeSet::new(alloc);
    let mut closed = BTreeSet::new(alloc);
    let mut left = inputs;
    while let Some((input, after)) = first_input(left) {
        if !admits(&opened, &closed, input) {
            return Ok(false);
        }
        if !does(&mut hub, input)? {
            return Ok(false);
        }
        note(&mut opened, &mut closed, input)?;
        left = after;
    }
    Ok(true)
}
