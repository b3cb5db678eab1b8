//! The verdict on a journal.
ghost use Rattle.std.specs.Prelude.{◌≡◌, IfOk};
ghost use Rattle.std.specs.List.{AllByRecursion};
ghost use Rattle.journal_text.specs.Inputs.{InputIsRead};
ghost use Rattle.log_check.specs.Rules.{IsJudged, TrueLogsMeetTheRules};

use crate::executed::is_executed;
use crate::fresh::is_fresh;
use crate::legal::is_legal;
use crate::once::is_once;
use crate::order::is_in_order;
use crate::positions::is_placed;
use crate::rule::Rule;
use journal_text::Journal;
use std::alloc::{AllocError, Global};
use target_hub::{Image, Input};
use tcf_text::LogLine;

/// The first rule that isn't met, of a log, the inputs of a history and the images of its target.
fn first_broken(
    alloc: Global,
    images: &[Image],
    inputs: &[Input],
    lines: &[LogLine],
) -> Result<Option<Rule>, AllocError>
    requires { AllByRecursion InputIsRead inputs.now }
    ensures { IfOk result (IsJudged images.now inputs.now lines.now) }
{
    if !is_legal(alloc, images, inputs)? {
        return Ok(Some(Rule::Legal));
    }
    if !is_once(alloc, lines)? {
        return Ok(Some(Rule::Once));
    }
    if !is_placed(inputs, lines) {
        return Ok(Some(Rule::Positions));
    }
    if !is_in_order(alloc, images, inputs, lines)? {
        return Ok(Some(Rule::Order));
    }
    if !is_executed(alloc, inputs, lines)? {
        return Ok(Some(Rule::Executed));
    }
    if !is_fresh(alloc, images, inputs, lines)? {
        return Ok(Some(Rule::Fresh));
    }
    Ok(None)
}

/// Judges a journal, whoever wrote it. None comes exactly where all rules are met, and else the first that isn't. What the
/// journal's inputs execute has to be a reading of its names, as it is of each journal that is read.
pub fn judge(alloc: Global, journal: &Journal) -> Result<Option<Rule>, AllocError>
    requires { AllByRecursion InputIsRead journal.now.inputs }
    ensures { IfOk result (IsJudged journal.now.images journal.now.inputs journal.now.lines) }
{
    first_broken(
        alloc,
        journal.images.as_slice(),
        journal.inputs.as_slice(),
        journal.lines.as_slice(),
    )
}

/// The law that a log that is true to the history of its target meets all rules.
pub fn a_true_log_meets_the_rules()
    ensures { TrueLogsMeetTheRules }
{}
