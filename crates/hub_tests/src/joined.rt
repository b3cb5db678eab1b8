//! A hub that is joined to an agent, with marks: three debuggers, one of whom comes late and one leaves with a command
//! pending. What each one knows is what the agent itself answers.
use crate::debugger::{Debugger, END, GET_CONTEXT, GET_STATE, HELLO, RESUME, START};
use agent_node::{AgentNode, Image};
use hub_node::{HubNode, HubSide};
use std::alloc::{AllocError, Global};
use std::process::Abort;
use std::test::Fail;
use tcf_outside::Octets;
use tcf_values::Text;

/// The hub's channel at the agent, and one of the agent's own.
const CHANNEL: u64 = 0;

const OTHER: u64 = 9;

fn new_agent(alloc: Global) -> Result<AgentNode, AllocError> {
    let mut images = Vec::new(alloc);
    images.push(Image {
        name: Text::from_str(alloc, "a")?,
        bytes: Octets::from_slice(alloc, b"\x13\0\0\0\x13\0\0\0")?,
    })?;
    AgentNode::new(alloc, images)
}

/// What the hub sends goes to the agent, which takes it.
fn carry_up(hub: &mut HubNode, agent: &mut AgentNode) -> Result<(), AllocError> {
    for _ in 0..100 {
        match hub.take_out(HubSide::Above) {
            Some(out) => agent.deliver(CHANNEL, out.bytes.as_slice())?,
            None => break,
        }
    }
    for _ in 0..100 {
        agent.turn(CHANNEL)?;
    }
    Ok(())
}

/// What the agent sends goes to the hub with its marks, and the hub takes it.
fn carry_down(hub: &mut HubNode, agent: &mut AgentNode) -> Result<(), AllocError> {
    for _ in 0..100 {
        match agent.take_out(CHANNEL) {
            Some(out) => hub.deliver(HubSide::Above, out.bytes.as_slice(), out.mark)?,
            None => break,
        }
    }
    for _ in 0..100 {
        hub.turn(HubSide::Above)?;
    }
    Ok(())
}

/// A debugger sends these bytes, of which the hub takes what it may.
fn send(hub: &mut HubNode, number: u64, bytes: &[u8]) -> Result<(), AllocError> {
    hub.deliver(HubSide::Below(number), bytes, None)?;
    for _ in 0..10 {
        hub.turn(HubSide::Below(number))?;
    }
    Ok(())
}

fn carry(hub: &mut HubNode, agent: &mut AgentNode) -> Result<(), AllocError> {
    carry_up(hub, agent)?;
    carry_down(hub, agent)
}

/// It asks the agent itself, on a channel of its own.
fn ask_agent(agent: &mut AgentNode, direct: &mut Debugger) -> Result<(), AllocError> {
    agent.opened(OTHER)?;
    agent.deliver(OTHER, HELLO)?;
    agent.deliver(OTHER, GET_STATE)?;
    agent.deliver(OTHER, GET_CONTEXT)?;
    for _ in 0..10 {
        agent.turn(OTHER)?;
    }
    for _ in 0..100 {
        match agent.take_out(OTHER) {
            Some(out) => direct.hear(&out)?,
            None => break,
        }
    }
    Ok(())
}

/// Two debuggers come, one starts a process, and the other asks whether its thread runs.
fn begin(hub: &mut HubNode, agent: &mut AgentNode) -> Result<(), AllocError> {
    agent.opened(CHANNEL)?;
    carry(hub, agent)?;
    hub.opened(1)?;
    hub.opened(2)?;
    send(hub, 1, HELLO)?;
    send(hub, 2, HELLO)?;
    send(hub, 1, START)?;
    send(hub, 2, GET_STATE)?;
    carry(hub, agent)
}

/// The second one leaves with a command pending, and a third one comes before its answer.
fn change_over(hub: &mut HubNode, agent: &mut AgentNode) -> Result<(), AllocError> {
    send(hub, 2, GET_CONTEXT)?;
    send(hub, 2, END)?;
    hub.opened(3)?;
    send(hub, 3, HELLO)?;
    carry(hub, agent)
}

/// The first one lets the thread go on, and the third one asks for the process.
fn go_on(hub: &mut HubNode, agent: &mut AgentNode) -> Result<(), AllocError> {
    send(hub, 1, RESUME)?;
    send(hub, 3, GET_CONTEXT)?;
    carry(hub, agent)
}

fn play(
    rt: &(impl Abort + AllocGlobal),
    hub: &mut HubNode,
    agent: &mut AgentNode,
    first: &mut Debugger,
    second: &mut Debugger,
) -> Result<(), Fail> {
    begin(hub, agent)?;
    first.hear_all(hub)?;
    second.hear_all(hub)?;
    assert_eq!(rt; first.answers, 1);
    assert_eq!(rt; second.answers, 1);
    assert!(rt; second.knows_process());
    change_over(hub, agent)?;
    second.hear_all(hub)?;
    assert_eq!(rt; second.answers, 1);
    assert!(rt; !hub.live(HubSide::Below(2)));
    assert_eq!(rt; hub.pending(), 0);
    Ok(())
}

fn agree(
    rt: &(impl Abort + AllocGlobal),
    agent: &mut AgentNode,
    direct: &mut Debugger,
    first: &Debugger,
    third: &Debugger,
) -> Result<(), Fail> {
    ask_agent(agent, direct)?;
    assert_eq!(rt; direct.answers, 2);
    assert_eq!(rt; first.state(), direct.state());
    assert_eq!(rt; third.state(), direct.state());
    assert!(rt; third.knows_process());
    assert_eq!(rt; first.mark, Some(5));
    assert_eq!(rt; third.mark, Some(6));
    Ok(())
}

fn compare(
    rt: &(impl Abort + AllocGlobal),
    agent: &mut AgentNode,
    first: &Debugger,
    third: &Debugger,
) -> Result<(), Fail> {
    let mut direct = Debugger::new(rt.alloc(), OTHER)?;
    agree(rt, agent, &mut direct, first, third)
}

/// The session, as three debuggers see it.
fn debug(
    rt: &(impl Abort + AllocGlobal),
    hub: &mut HubNode,
    agent: &mut AgentNode,
    first: &mut Debugger,
    second: &mut Debugger,
    third: &mut Debugger,
) -> Result<(), Fail> {
    play(rt, hub, agent, first, second)?;
    go_on(hub, agent)?;
    first.hear_all(hub)?;
    third.hear_all(hub)?;
    assert_eq!(rt; third.answers, 1);
    assert_eq!(rt; second.state(), "stands");
    assert_eq!(rt; third.state(), "runs");
    compare(rt, agent, first, third)
}

fn with_three(
    rt: &(impl Abort + AllocGlobal),
    hub: &mut HubNode,
    agent: &mut AgentNode,
    first: &mut Debugger,
    second: &mut Debugger,
) -> Result<(), Fail> {
    let mut third = Debugger::new(rt.alloc(), 3)?;
    debug(rt, hub, agent, first, second, &mut third)
}

fn with_two(
    rt: &(impl Abort + AllocGlobal),
    hub: &mut HubNode,
    agent: &mut AgentNode,
    first: &mut Debugger,
) -> Result<(), Fail> {
    let mut second = Debugger::new(rt.alloc(), 2)?;
    with_three(rt, hub, agent, first, &mut second)
}

fn with_one(
    rt: &(impl Abort + AllocGlobal),
    hub: &mut HubNode,
    agent: &mut AgentNode,
) -> Result<(), Fail> {
    let mut first = Debugger::new(rt.alloc(), 1)?;
    with_two(rt, hub, agent, &mut first)
}

fn behind_a_hub(rt: &(impl Abort + AllocGlobal), agent: &mut AgentNode) -> Result<(), Fail> {
    let mut hub = HubNode::new(rt.alloc())?;
    with_one(rt, &mut hub, agent)
}

// Each thing is owned by a function of its own, so that it is dropped in one place.
#[test]
fn debuggers_behind_a_hub_know_what_the_agent_answers(rt: HostRuntime) -> Result<(), Fail> {
    let mut agent = new_agent(rt.alloc())?;
    behind_a_hub(&rt, &mut agent)
}
