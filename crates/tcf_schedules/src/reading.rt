//! The reading of a schedule, line by line.
ghost use Rattle.std.specs.Prelude.{◌≡◌, ◌<◌, ◌≤◌, ◌∷◌, Ok, Err, Some, length, IfOk, IfErr, IsOk, OnOk, false};
ghost use Rattle.tcf_schedules.specs.Line.{step};
ghost use Rattle.tcf_schedules.specs.Plan.{AreSteps, plans_of, step_count};
ghost use Rattle.tcf_schedules.specs.Placed.{step_plan};
ghost use Rattle.tcf_schedules.specs.Refusal.{Refuses};
ghost use Rattle.tcf_schedules.specs.Said.{image_said, head_said, step_said};
ghost use Rattle.tcf_schedules.specs.Schedule.{lines_of, schedule_of, is_skipped, meaning, nothing, has_step, is_image, is_chain, with_chain, with_plan, after_line, after_head, after_value, at_line, WantsMemory};

use crate::image::{ImageList, ImageSays};
use crate::laws::reads_what_is_said;
use crate::line::{HeadSays, LineSays, StepSays, line_says};
use crate::place::{PlacedStep, place};
use crate::schedule::{ChainHead, ChainHeads, Schedule, ScheduleSteps, TextFault, TextRefusal};
use std::alloc::Global;
use std::marker::Model;
use tcf_outside::Octets;
use tcf_values::cut_at;

/// The most chains of a schedule.
const MOST_CHAINS: usize = 64;

/// The most steps of a schedule, where each round and each repetition counts as one.
const MOST_STEPS: u64 = 1_000_000;

/// What the lines said so far, and as how many steps it counts.
#[derive(Drop)]
struct Reading<'a> {
    alloc: Global,
    images: ImageList<'a>,
    chains: ChainHeads,
    steps: ScheduleSteps,
    count: u64,
}

impl<'a> Model for Reading<'a> {
    ghost use Rattle.std.specs.Prelude.{◌≡◌, ◌≤◌};
    ghost use Rattle.std.specs.Coded.{codes};
    ghost use Rattle.tcf_schedules.specs.contracts.schedule.ScheduleStep as one_step;
    ghost use Rattle.tcf_schedules.specs.declared.schedule.Schedule.{Schedule};
    ghost use Rattle.tcf_schedules.specs.Plan.{plans_of, step_count};

    ghost Value = { Schedule };

    ghost coded = { Prim.hlevel (codes, one_step.the_row.coded) };

    ghost view = { λ r. record { images = r.images; chains = r.chains; steps = r.steps } };

    ghost invariant = { λ r. (r.count ≡ step_count (plans_of r.steps)) × (r.count ≤ 1000000) };
}

/// The refusal of the line of this number.
pub(crate) fn bad(line: u64, what: TextFault) -> TextRefusal
    ensures { result ≡ TextRefusal.Bad line what }
{
    TextRefusal::Bad { line, what }
}

impl<'a> Reading<'a> {
    fn new(alloc: Global) -> Self
        ensures { meaning result ≡ nothing }
    {
        Reading {
            alloc,
            images: ImageList::new(alloc),
            chains: ChainHeads::new(alloc),
            steps: ScheduleSteps::new(alloc),
            count: 0,
        }
    }

    fn has_step(&self) -> bool
        ensures { result ≡ has_step (meaning self.now) }
    {
        self.steps.len() > 0
    }

    fn has_image(&self, name: &[u8]) -> bool
        ensures { result ≡ is_image name.now (meaning self.now) }
    {
        self.images.has(name)
    }

    fn has_chain(&self, name: &[u8]) -> bool
        ensures { result ≡ is_chain name.now (meaning self.now) }
    {
        self.chains.iter().any(|head| head.name.as_slice() == name)
    }

    /// Adds the image, if no step stands before it and its name is new.
    fn add_image(&mut self, line: u64, says: &ImageSays<'a>) -> Result<(), TextRefusal>
        ensures ok { OnOk result (after_head (meaning self.old) (image_said says.now) ≡ Ok (meaning self.new)) }
        ensures bad { IfErr result (Refuses (at_line line (after_head (meaning self.old) (image_said says.now)))) }
        ensures wants { result ≡ Err TextRefusal.NoMemory → IsOk (after_head (meaning self.old) (image_said says.now)) }
    {
        if self.has_step() {
            return Err(bad(line, TextFault::Late));
        }
        if self.has_image(says.name) {
            return Err(bad(line, TextFault::Repeat));
        }
        self.images.push(self.alloc, says)?;
        Ok(())
    }

    /// Adds the chain, if no step stands before it, its name is new and there are fewer than 64.
    fn add_chain(&mut self, line: u64, name: &[u8], adds: u32) -> Result<(), TextRefusal>
        ensures ok { OnOk result (with_chain name.now adds (meaning self.old) ≡ Ok (meaning self.new)) }
        ensures bad { IfErr result (Refuses (at_line line (with_chain name.now adds (meaning self.old)))) }
        ensures wants { result ≡ Err TextRefusal.NoMemory → IsOk (with_chain name.now adds (meaning self.old)) }
    {
        if self.has_step() {
            return Err(bad(line, TextFault::Late));
        }
        if self.has_chain(name) {
            return Err(bad(line, TextFault::Repeat));
        }
        if self.chains.len() >= MOST_CHAINS {
            return Err(bad(line, TextFault::Many));
        }
        let name = Octets::from_slice(self.alloc, name)?;
        self.chains.push(ChainHead {
            name,
            adds: adds as usize,
        })?;
        Ok(())
    }

    fn add_head(&mut self, line: u64, says: &HeadSays<'a>) -> Result<(), TextRefusal>
        ensures ok { OnOk result (after_head (meaning self.old) (head_said says.now) ≡ Ok (meaning self.new)) }
        ensures bad { IfErr result (Refuses (at_line line (after_head (meaning self.old) (head_said says.now)))) }
        ensures wants { result ≡ Err TextRefusal.NoMemory → IsOk (after_head (meaning self.old) (head_said says.now)) }
    {
        match says {
            HeadSays::Image(says) => self.add_image(line, says),
            HeadSays::Chain { name, adds } => self.add_chain(line, name, *adds),
        }
    }

    /// Adds the step, if that leaves at most 1,000,000.
    fn add_placed(&mut self, line: u64, placed: &PlacedStep<'_>) -> Result<(), TextRefusal>
        ensures ok { OnOk result (with_plan (Some (step_plan placed.now)) (meaning self.old) ≡ Ok (meaning self.new)) }
        ensures bad { IfErr result (Refuses (at_line line (with_plan (Some (step_plan placed.now)) (meaning self.old)))) }
        ensures wants { result ≡ Err TextRefusal.NoMemory → IsOk (with_plan (Some (step_plan placed.now)) (meaning self.old)) }
    {
        let count = self.count + u64::from(placed.size());
        if count > MOST_STEPS {
            return Err(bad(line, TextFault::Many));
        }
        let step = placed.step(self.alloc)?;
        self.steps.push(step)?;
        self.count = count;
        Ok(())
    }

    /// Adds the step, if its chain, its hop and its node are there.
    fn add_step(&mut self, line: u64, says: &StepSays<'_>) -> Result<(), TextRefusal>
        ensures ok { OnOk result (after_value (meaning self.old) (step (step_said says.now)) ≡ Ok (meaning self.new)) }
        ensures bad { IfErr result (Refuses (at_line line (after_value (meaning self.old) (step (step_said says.now))))) }
        ensures wants { result ≡ Err TextRefusal.NoMemory → IsOk (after_value (meaning self.old) (step (step_said says.now))) }
    {
        match place(self.chains.as_slice(), says) {
            Some(placed) => self.add_placed(line, &placed),
            None => Err(bad(line, TextFault::Unknown)),
        }
    }

    /// Takes the line of this number.
    fn take_line(&mut self, number: u64, line: &'a [u8]) -> Result<(), TextRefusal>
        ensures ok { OnOk result (after_line (meaning self.old) line.now ≡ Ok (meaning self.new)) }
        ensures bad { IfErr result (Refuses (at_line number (after_line (meaning self.old) line.now))) }
        ensures wants { result ≡ Err TextRefusal.NoMemory → IsOk (after_line (meaning self.old) line.now) }
        ensures kept { result ≡ Err TextRefusal.NoMemory → is_skipped line.now ≡ false }
    {
        if is_blank_or_comment(line) {
            return Ok(());
        }
        match line_says(line) {
            Some(LineSays::Head(says)) => self.add_head(number, &says),
            Some(LineSays::Step(says)) => self.add_step(number, &says),
            None => Err(bad(number, TextFault::Form)),
        }
    }

    fn into_schedule(self) -> Schedule
        ensures { result ≡ self.entry }
    {
        Schedule {
            images: self.images.into_images(),
            chains: self.chains,
            steps: self.steps,
        }
    }
}

/// Whether a line is skipped: an empty one, and one that begins with `#`.
pub fn is_blank_or_comment(line: &[u8]) -> bool
    ensures { result ≡ is_skipped line.now }
{
    matches!(line, [] | [b'#', ..])
}

/// The first line of a file that isn't empty, without its end, and what follows it.
#[tactic(auto, using(line_words::proofs::Cuts::shorter_cut, crate::proofs::Lines::lines_cut, crate::proofs::Lines::lines_last))]
pub fn cut_line(file: &[u8]) -> (&[u8], &[u8])
    requires { 0 < length file.now }
    ensures lines { lines_of file.now ≡ result.0.now ∷ lines_of result.1.now }
    ensures shorter { length result.1.now < length file.now }
{
    match cut_at(b'\n', file) {
        Some(parts) => parts,
        None => (file, &[]),
    }
}

/// The schedule that the file's lines say. The first bad line refuses the file, with what is wrong with it.
pub fn read_schedule(alloc: Global, file: &[u8]) -> Result<Schedule, TextRefusal>
    ensures ok { IfOk result (λ schedule. schedule_of file.now ≡ Ok (meaning schedule)) }
    ensures bad { IfErr result (Refuses (schedule_of file.now)) }
    ensures within { IfOk result (λ schedule. AreSteps schedule.chains (plans_of schedule.steps)) }
    ensures wants { result ≡ Err TextRefusal.NoMemory → WantsMemory file.now }
{
    // What is read is what the file says, so its steps are within their bounds.
    reads_what_is_said();
    let mut reading = Reading::new(alloc);
    let mut rest = file;
    let mut number = 0u64;
    while !rest.is_empty() {
        let (line, after) = cut_line(rest);
        number += 1;
        reading.take_line(number, line)?;
        rest = after;
    }
    Ok(reading.into_schedule())
}
