//! The commands that the schedule's clients send.
ghost use Rattle.std.specs.Prelude.{◌≡◌, ◌++◌, map, IfOk, OnOk};
ghost use Rattle.tcf_schedules.specs.Plan.{plan_of};
ghost use Rattle.tcf_schedules.specs.Words.{data_of, part_text};
ghost use Rattle.load_schedules.specs.Drawn.{sends, resume, suspend, get_state, get_memory, set_memory};
ghost use Rattle.load_schedules.specs.Generated.{redirect, start};

use itoa::Buffer;
use std::alloc::{AllocError, Global};
use tcf_outside::Octets;
use tcf_schedules::ScheduleStep;

/// The part that a word says, with the zero that ends it. The word `-` says the empty part.
#[tactic(auto, unfolding(tcf_schedules::specs::Words::dash_word))]
fn push_part(word: &str, body: &mut Octets) -> Result<(), AllocError>
    ensures { OnOk result (body.new ≡ body.old ++ part_text word.now) }
{
    if word != "-" {
        body.extend(word.as_bytes())?;
    }
    body.push(0)
}

/// The data that the words say, part by part.
fn data(alloc: Global, words: &[&str]) -> Result<Octets, AllocError>
    ensures { IfOk result (λ body. body ≡ data_of (map (λ word. word.now) words.now)) }
{
    let mut body = Octets::new(alloc);
    for word in words {
        push_part(word, &mut body)?;
    }
    Ok(body)
}

/// A command that the client of the chain sends.
fn command(
    alloc: Global,
    chain: usize,
    service: &str,
    name: &str,
    words: &[&str],
) -> Result<ScheduleStep, AllocError>
    ensures { IfOk result (λ made. plan_of made ≡ sends chain service.now name.now (map (λ word. word.now) words.now)) }
{
    Ok(ScheduleStep::Send {
        chain,
        service: Octets::from_slice(alloc, service.as_bytes())?,
        name: Octets::from_slice(alloc, name.as_bytes())?,
        body: data(alloc, words)?,
    })
}

/// The chain's first value-add is to go on to this peer.
pub(crate) fn redirect(alloc: Global, chain: usize, peer: &str) -> Result<ScheduleStep, AllocError>
    ensures { IfOk result (λ made. plan_of made ≡ redirect chain peer.now) }
{
    command(alloc, chain, "Locator", "redirect", &[peer])
}

/// The process P1 is started from the image, and attached.
pub(crate) fn start(alloc: Global) -> Result<ScheduleStep, AllocError>
    ensures { IfOk result (λ made. plan_of made ≡ start) }
{
    let words = ["\"\"", "\"loop\"", "[]", "[]", "true"];
    command(alloc, 0, "Processes", "start", &words)
}

pub(crate) fn resume(alloc: Global, chain: usize) -> Result<ScheduleStep, AllocError>
    ensures { IfOk result (λ made. plan_of made ≡ resume chain) }
{
    command(
        alloc,
        chain,
        "RunControl",
        "resume",
        &["\"P1.1\"", "0", "1"],
    )
}

pub(crate) fn suspend(alloc: Global, chain: usize) -> Result<ScheduleStep, AllocError>
    ensures { IfOk result (λ made. plan_of made ≡ suspend chain) }
{
    command(alloc, chain, "RunControl", "suspend", &["\"P1.1\""])
}

pub(crate) fn get_state(alloc: Global, chain: usize) -> Result<ScheduleStep, AllocError>
    ensures { IfOk result (λ made. plan_of made ≡ get_state chain) }
{
    command(alloc, chain, "RunControl", "getState", &["\"P1.1\""])
}

/// 16 bytes are read, from this address on.
pub(crate) fn get_memory(
    alloc: Global,
    chain: usize,
    address: u64,
) -> Result<ScheduleStep, AllocError>
    ensures { IfOk result (λ made. plan_of made ≡ get_memory chain address) }
{
    let mut digits = Buffer::new();
    let words = ["\"P1\"", digits.format(address), "1", "16", "0"];
    command(alloc, chain, "Memory", "get", &words)
}

/// 4 bytes are written, from this address on.
pub(crate) fn set_memory(
    alloc: Global,
    chain: usize,
    address: u64,
) -> Result<ScheduleStep, AllocError>
    ensures { IfOk result (λ made. plan_of made ≡ set_memory chain address) }
{
    let mut digits = Buffer::new();
    let words = [
        "\"P1\"",
        digits.format(address),
        "1",
        "4",
        "0",
        "\"BQAAAA==\"",
    ];
    command(alloc, chain, "Memory", "set", &words)
}
