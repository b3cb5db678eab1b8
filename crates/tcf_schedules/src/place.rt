//! Where the steps of a schedule's lines take place: the chains, hops and nodes that they name.
ghost use Rattle.std.specs.Prelude.{◌≡◌, ◌++◌, ◌+◌, option_map, IfOk, OnOk};
ghost use Rattle.tcf_values.specs.Number.{number_of};
ghost use Rattle.tcf_schedules.specs.Plan.{adds_at, plan_of, step_size, send as plan_send};
ghost use Rattle.tcf_schedules.specs.Placed.{placed_plan, step_plan};
ghost use Rattle.tcf_schedules.specs.Said.{command_said, plain_said, step_said, words_said};
ghost use Rattle.tcf_schedules.specs.Schedule.{chain_of, hop_of, node_of, hop_in, node_in, plain_plan, plan_in};
ghost use Rattle.tcf_schedules.specs.Words.{words_of, part_text, data_of};

use crate::line::{CommandSays, PlainSays, StepSays};
use crate::schedule::{ChainHead, ScheduleStep};
use crate::words::dash_word;
use cached_lines::CachedSays;
use line_words::first_word;
use std::alloc::{AllocError, Global};
use tcf_outside::Octets;
use tcf_values::{ContextId, number_within};

/// A step that can be repeated, by the place of its chain in the header and the numbers of its hop and its node.
#[derive(Drop)]
pub(crate) enum Placed<'a> {
    Opens {
        chain: usize,
    },
    Sends {
        chain: usize,
        service: &'a [u8],
        command: CommandSays<'a>,
    },
    Delivers {
        chain: usize,
        hop: usize,
        up: bool,
        count: u32,
    },
    Turns {
        chain: usize,
        node: usize,
        up: bool,
    },
    Ticks(ContextId),
    Closes {
        chain: usize,
    },
    Cuts {
        chain: usize,
        hop: usize,
    },
    Asks {
        chain: usize,
        what: CachedSays<'a>,
    },
}

/// A step, so many rounds, or a step so many times.
#[derive(Drop)]
pub(crate) enum PlacedStep<'a> {
    Once(Placed<'a>),
    Rounds(u32),
    Times(u32, Placed<'a>),
}

/// The place of the chain of this name.
pub fn chain_at(chains: &[ChainHead], name: &[u8]) -> Option<usize>
    ensures { result ≡ chain_of chains.now name.now }
{
    chains.iter().position(|head| head.name.as_slice() == name)
}

/// How many value-adds the chain at this place has.
fn adds_of(chains: &[ChainHead], chain: usize) -> usize
    ensures { result ≡ adds_at chains.now chain }
{
    match chains.get(chain) {
        Some(head) => head.adds,
        None => 0,
    }
}

/// The number that the digits say, if it is at most so large.
#[tactic(auto, using(crate::proofs::Places::place_none))]
fn up_to(most: usize, digits: &[u8]) -> Option<usize>
    ensures { result ≡ number_of 0 most digits.now }
{
    let number = number_within(digits, 0, u32::MAX)? as usize;
    if number <= most { Some(number) } else { None }
}

/// The number that the digits say, if it is 1 or more and at most one above this.
#[tactic(auto, using(crate::proofs::Places::place_none))]
fn one_to_above(most: usize, digits: &[u8]) -> Option<usize>
    ensures { result ≡ number_of 1 (most + 1) digits.now }
{
    let number = number_within(digits, 1, u32::MAX)? as usize;
    if number - 1 <= most {
        Some(number)
    } else {
        None
    }
}

/// The hop of the chain that the digits say.
fn hop_at(chains: &[ChainHead], chain: usize, digits: &[u8]) -> Option<usize>
    ensures { result ≡ hop_of chains.now chain digits.now }
{
    up_to(adds_of(chains, chain), digits)
}

/// The node of the chain that the digits say, which takes what travels up, or down.
fn node_at(chains: &[ChainHead], chain: usize, up: bool, digits: &[u8]) -> Option<usize>
    ensures { result ≡ node_of chains.now chain up digits.now }
{
    if up {
        one_to_above(adds_of(chains, chain), digits)
    } else {
        up_to(adds_of(chains, chain), digits)
    }
}

/// The place of the chain of this name, and the number of its hop.
fn hop_in(chains: &[ChainHead], name: &[u8], digits: &[u8]) -> Option<(usize, usize)>
    ensures { result ≡ hop_in chains.now name.now digits.now }
{
    let chain = chain_at(chains, name)?;
    Some((chain, hop_at(chains, chain, digits)?))
}

/// The same with its node.
fn node_in(chains: &[ChainHead], name: &[u8], up: bool, digits: &[u8]) -> Option<(usize, usize)>
    ensures { result ≡ node_in chains.now name.now up digits.now }
{
    let chain = chain_at(chains, name)?;
    Some((chain, node_at(chains, chain, up, digits)?))
}

/// The step at its place, if there is one.
fn place_plain<'a>(chains: &[ChainHead], says: &PlainSays<'a>) -> Option<Placed<'a>>
    ensures { option_map placed_plan result ≡ plain_plan chains.now (plain_said says.now) }
{
    match says {
        PlainSays::Opens(name) => Some(Placed::Opens {
            chain: chain_at(chains, name)?,
        }),
        PlainSays::Sends {
            name,
            service,
            command,
        } => Some(Placed::Sends {
            chain: chain_at(chains, name)?,
            service,
            command: *command,
        }),
        PlainSays::Delivers {
            name,
            hop,
            up,
            count,
        } => {
            let (chain, hop) = hop_in(chains, name, hop)?;
            Some(Placed::Delivers {
                chain,
                hop,
                up: *up,
                count: *count,
            })
        }
        PlainSays::Turns { name, node, up } => {
            let (chain, node) = node_in(chains, name, *up, node)?;
            Some(Placed::Turns {
                chain,
                node,
                up: *up,
            })
        }
        PlainSays::Ticks(thread) => Some(Placed::Ticks(*thread)),
        PlainSays::Closes(name) => Some(Placed::Closes {
            chain: chain_at(chains, name)?,
        }),
        PlainSays::Cuts { name, hop } => {
            let (chain, hop) = hop_in(chains, name, hop)?;
            Some(Placed::Cuts { chain, hop })
        }
        PlainSays::Asks { name, what } => Some(Placed::Asks {
            chain: chain_at(chains, name)?,
            what: *what,
        }),
    }
}

/// The step at its place among the chains, if there is one.
pub(crate) fn place<'a>(chains: &[ChainHead], says: &StepSays<'a>) -> Option<PlacedStep<'a>>
    ensures { option_map step_plan result ≡ plan_in chains.now (step_said says.now) }
{
    match says {
        StepSays::Once(says) => Some(PlacedStep::Once(place_plain(chains, says)?)),
        StepSays::Rounds(count) => Some(PlacedStep::Rounds(*count)),
        StepSays::Times(count, says) => Some(PlacedStep::Times(*count, place_plain(chains, says)?)),
    }
}

/// Appends the part that a word says, and the zero that ends it.
fn push_part(word: &[u8], body: &mut Octets) -> Result<(), AllocError>
    ensures { OnOk result (body.new ≡ body.old ++ part_text word.now) }
{
    if word != dash_word() {
        body.extend(word)?;
    }
    body.push(0)
}

/// Appends the parts that the words say.
#[tactic(auto, using(line_words::proofs::Cuts::words_cut, line_words::proofs::Cuts::words_last, line_words::proofs::Cuts::shorter_cut))]
fn push_parts(words: &[u8], body: &mut Octets) -> Result<(), AllocError>
    ensures { OnOk result (body.new ≡ body.old ++ data_of (words_of words.now)) }
{
    let mut rest = words;
    while let Some((word, after)) = first_word(rest) {
        push_part(word, body)?;
        rest = after;
    }
    push_part(rest, body)
}

/// The data that the words say, where there are some.
pub(crate) fn data(alloc: Global, words: Option<&[u8]>) -> Result<Octets, AllocError>
    ensures { IfOk result (λ body. body ≡ data_of (words_said (option_map (λ t. t.now) words.entry))) }
{
    let mut body = Octets::new(alloc);
    if let Some(words) = words {
        push_parts(words, &mut body)?;
    }
    Ok(body)
}

fn sending(
    alloc: Global,
    chain: usize,
    service: &[u8],
    command: CommandSays<'_>,
) -> Result<ScheduleStep, AllocError>
    ensures { IfOk result (λ made. plan_of made ≡ plan_send chain service.now (command_said command.entry).0 (data_of (command_said command.entry).1)) }
{
    Ok(ScheduleStep::Send {
        chain,
        service: Octets::from_slice(alloc, service)?,
        name: Octets::from_slice(alloc, command.name)?,
        body: data(alloc, command.args)?,
    })
}

fn plain_step(alloc: Global, placed: &Placed<'_>) -> Result<ScheduleStep, AllocError>
    ensures { IfOk result (λ made. plan_of made ≡ placed_plan placed.now) }
{
    match placed {
        Placed::Opens { chain } => Ok(ScheduleStep::Opens { chain: *chain }),
        Placed::Sends {
            chain,
            service,
            command,
        } => sending(alloc, *chain, service, *command),
        Placed::Delivers {
            chain,
            hop,
            up,
            count,
        } => Ok(ScheduleStep::Deliver {
            chain: *chain,
            hop: *hop,
            up: *up,
            count: *count,
        }),
        Placed::Turns { chain, node, up } => Ok(ScheduleStep::Turn {
            chain: *chain,
            node: *node,
            up: *up,
        }),
        Placed::Ticks(thread) => Ok(ScheduleStep::Tick { thread: *thread }),
        Placed::Closes { chain } => Ok(ScheduleStep::Close { chain: *chain }),
        Placed::Cuts { chain, hop } => Ok(ScheduleStep::Cut {
            chain: *chain,
            hop: *hop,
        }),
        Placed::Asks { chain, what } => Ok(ScheduleStep::Cached {
            chain: *chain,
            what: what.copied(alloc)?,
        }),
    }
}

impl PlacedStep<'_> {
    /// As how many steps the step counts.
    pub(crate) fn size(&self) -> u32
        ensures { result ≡ step_size (step_plan self.now) }
    {
        match self {
            PlacedStep::Once(_) => 1,
            PlacedStep::Rounds(count) | PlacedStep::Times(count, _) => *count,
        }
    }

    /// The step itself.
    pub(crate) fn step(&self, alloc: Global) -> Result<ScheduleStep, AllocError>
        ensures { IfOk result (λ made. plan_of made ≡ step_plan self.now) }
    {
        match self {
            PlacedStep::Once(placed) => plain_step(alloc, placed),
            PlacedStep::Rounds(count) => Ok(ScheduleStep::Rounds { count: *count }),
            PlacedStep::Times(count, placed) => Ok(ScheduleStep::Times {
                count: *count,
                step: Box::new(alloc, plain_step(alloc, placed)?)?,
            }),
        }
    }
}
