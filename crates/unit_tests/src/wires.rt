//! That the object for wires reaches the system's connections.
use std::io::{Read, Write};
use std::net::{SocketAddr, TcpListener, TcpStream};
use std::process::Abort;
use std::test::Fail;
use std::time::Duration;
use tcf_wires::{Put, RealWires, WireEvent, WireRefusal, Wires};

fn is_idle(wires: &mut impl Wires) -> bool {
    match wires.next() {
        Ok(WireEvent::Idle) => true,
        _ => false,
    }
}

fn listen_alone(rt: &(impl Abort + AllocGlobal), wires: &mut impl Wires) {
    assert_eq!(rt; wires.listen("here"), Err(WireRefusal::Failed));
    assert_eq!(rt; wires.listen("127.0.0.1:0"), Ok(()));
    assert!(rt; is_idle(wires));
    assert_eq!(rt; wires.put(0, b"abc"), Put::Lost);
    assert_eq!(rt; wires.shut(0), Ok(()));
}

#[test]
fn the_system_lends_a_place_to_listen(rt: HostRuntime) -> Result<(), Fail> {
    let mut wires = RealWires::new(&rt, rt.alloc())?;
    listen_alone(&rt, &mut wires);
    Ok(())
}

/// An address of this machine at which nobody listens now.
fn free_address(rt: &HostRuntime) -> Result<SocketAddr, Fail> {
    Ok(TcpListener::bind(rt, "127.0.0.1:0")?.local_addr()?)
}

/// A peer that has connected to wires that listen now.
fn peer_of(rt: &HostRuntime, wires: &mut RealWires<&HostRuntime>) -> Result<TcpStream, Fail> {
    let address = free_address(rt)?;
    let text = format!(in rt.alloc(); "{address}")?;
    drop(wires.listen(text.as_str()));
    let peer = TcpStream::connect(rt, address)?;
    peer.set_read_timeout(Some(Duration::from_secs(10)))?;
    Ok(peer)
}

/// What comes next but `Idle`, of thirty calls at most.
fn next_text(rt: &impl AllocGlobal, wires: &mut impl Wires) -> Result<String, Fail> {
    for _ in 0..30 {
        match wires.next() {
            Ok(WireEvent::Idle) => {}
            came => return Ok(format!(in rt.alloc(); "{came:?}")?),
        }
    }
    Ok(format!(in rt.alloc(); "Idle")?)
}

fn assert_next(
    rt: &(impl Abort + AllocGlobal),
    wires: &mut impl Wires,
    want: &str,
) -> Result<(), Fail> {
    let text = next_text(rt, wires)?;
    assert_eq!(rt; text.as_str(), want);
    Ok(())
}

fn hear_to_the_end(rt: &(impl Abort + AllocGlobal), wires: &mut impl Wires) -> Result<(), Fail> {
    assert_next(rt, wires, "Ok(Opened(0))")?;
    let piece = "Ok(Piece(0, Sequence { inner: [97, 98] }))";
    assert_next(rt, wires, piece)?;
    assert_next(rt, wires, "Ok(Ended(0))")?;
    assert_next(rt, wires, "Idle")
}

#[test]
fn a_peer_that_ends_at_once_is_heard_to_the_end(rt: HostRuntime) -> Result<(), Fail> {
    let mut wires = RealWires::new(&rt, rt.alloc())?;
    let mut peer = peer_of(&rt, &mut wires)?;
    peer.write_all(b"ab")?;
    drop(peer);
    hear_to_the_end(&rt, &mut wires)
}

fn put_and_shut(rt: &(impl Abort + AllocGlobal), wires: &mut impl Wires) {
    assert_eq!(rt; wires.put(0, b"ab"), Put::Took(2));
    assert_eq!(rt; wires.shut(0), Ok(()));
    assert_eq!(rt; wires.put(0, b"c"), Put::Lost);
}

/// A peer reads two bytes and the end.
fn read_to_the_end(rt: &(impl Abort + AllocGlobal), peer: &mut TcpStream) -> Result<(), Fail> {
    let mut came = [0u8; 8];
    assert_eq!(rt; peer.read(&mut came)?, 2);
    assert_eq!(rt; peer.read(&mut came)?, 0);
    Ok(())
}

fn put_to_the_end(
    rt: &(impl Abort + AllocGlobal),
    wires: &mut impl Wires,
    peer: &mut TcpStream,
) -> Result<(), Fail> {
    assert_next(rt, wires, "Ok(Opened(0))")?;
    peer.write_all(b"nobody reads this")?;
    put_and_shut(rt, wires);
    read_to_the_end(rt, peer)?;
    Ok(peer.write_all(b"nor this")?)
}

#[test]
fn a_peer_that_is_shut_reads_all_that_was_put(rt: HostRuntime) -> Result<(), Fail> {
    let mut wires = RealWires::new(&rt, rt.alloc())?;
    let mut peer = peer_of(&rt, &mut wires)?;
    put_to_the_end(&rt, &mut wires, &mut peer)?;
    drop(peer);
    assert_next(&rt, &mut wires, "Idle")
}
