//! The target: what all channels share.
use breakpoints::Breakpoints;
use std::marker::Model;
use target_contexts::Targets;

/// The live processes with the images that they are started from, and the breakpoints of all channels. Contracts see a
/// record of both.
#[derive(Drop)]
pub struct Target {
    pub contexts: Targets,
    pub breakpoints: Breakpoints,
}

impl Model for Target {
    ghost use Rattle.run_control.specs.TargetValue.{TargetValue};

    ghost Value = { TargetValue };

    ghost view = { λ t. record { contexts = t.contexts.seen; breakpoints = t.breakpoints } };
}
