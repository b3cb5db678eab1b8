//! That the enabled breakpoints of an address are lent by it.
ghost use Rattle.std.specs.Prelude.{IsTrue};
ghost use Rattle.breakpoints.specs.Changes.{changes_list};

use breakpoints::{BpDone, Breakpoints};
use std::alloc::{AllocError, Global};
use std::process::Abort;
use std::test::Fail;
use tcf_values::{BpProps, Command, Text, Texts};

/// Executes a command that changes the list.
fn change(list: &mut Breakpoints, command: Command) -> Result<BpDone, AllocError>
    requires { IsTrue (changes_list command) }
{
    list.apply(0, &command)
}

/// The properties of a breakpoint of this ID.
fn props(alloc: Global, id: &str, location: &str, enabled: bool) -> Result<BpProps, AllocError> {
    let id = Text::from_str(alloc, id)?;
    let location = Text::from_str(alloc, location)?;
    Ok(BpProps {
        id,
        enabled,
        location: Some(location),
        contexts: None,
        ignore: None,
    })
}

fn add(list: &mut Breakpoints, props: BpProps) -> Result<BpDone, AllocError> {
    change(list, Command::BpAdd { props })
}

/// The IDs at an address, each with a blank behind it; `none` where there are none.
fn found(alloc: Global, list: &Breakpoints, address: u32) -> Result<String, AllocError> {
    match list.at(address) {
        Some(ids) => {
            let mut line = String::new(alloc);
            for id in ids.as_slice() {
                line.push_str(id.as_str())?;
                line.push(' ')?;
            }
            Ok(line)
        }
        None => String::from_str(alloc, "none"),
    }
}

fn ids(alloc: Global, id: &str) -> Result<Texts, AllocError> {
    let mut ids = Texts::new(alloc);
    ids.push(Text::from_str(alloc, id)?)?;
    Ok(ids)
}

fn enable(list: &mut Breakpoints, ids: Texts) -> Result<BpDone, AllocError> {
    change(list, Command::BpEnable { ids })
}

/// Adds three breakpoints, the second of them disabled.
fn add_three(alloc: Global, list: &mut Breakpoints) -> Result<(), AllocError> {
    add(list, props(alloc, "b1", "0x10", true)?)?;
    add(list, props(alloc, "b2", "16", false)?)?;
    add(list, props(alloc, "b3", "16", true)?)?;
    Ok(())
}

/// The IDs that are found at an address.
fn assert_found(
    rt: &(impl Abort + AllocGlobal),
    list: &Breakpoints,
    address: u32,
    want: &str,
) -> Result<(), Fail> {
    let line = found(rt.alloc(), list, address)?;
    assert_eq!(rt; line.as_str(), want);
    Ok(())
}

fn find_enabled(rt: &(impl Abort + AllocGlobal), list: &mut Breakpoints) -> Result<(), Fail> {
    add_three(rt.alloc(), list)?;
    assert_found(rt, list, 16, "b1 b3 ")?;
    enable(list, ids(rt.alloc(), "b2")?)?;
    assert_found(rt, list, 16, "b1 b2 b3 ")?;
    assert_found(rt, list, 20, "none")
}

#[test]
fn enabled_breakpoints_are_found_by_their_address(rt: HostRuntime) -> Result<(), Fail> {
    let mut list = Breakpoints::new(rt.alloc());
    find_enabled(&rt, &mut list)
}
