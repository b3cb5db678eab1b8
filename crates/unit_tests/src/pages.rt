//! That processes of one image share its pages until one of them writes.
use std::alloc::Global;
use std::process::Abort;
use std::test::Fail;
use target_contexts::{Image, Targets};
use tcf_values::{Bytes, Text};

/// addi x1,x0,5; sw x1,0(x0); ebreak
const PROGRAM: [u8; 12] = [147, 0, 80, 0, 35, 32, 16, 0, 115, 0, 16, 0];

/// A target of one image.
fn targets(alloc: Global) -> Result<Targets, Fail> {
    let name = Text::from_str(alloc, "a")?;
    let bytes = Bytes::from_slice(alloc, &PROGRAM)?;
    let mut images = Vec::new(alloc);
    images.push(Image { name, bytes })?;
    Ok(Targets::new(alloc, images)?)
}

/// Starts P1, P2 and P3, attached.
fn start(targets: &mut Targets) -> Result<(), Fail> {
    for _ in 0..3 {
        targets.add(b"a", true).ok().ok_or("no start")?;
    }
    Ok(())
}

/// Puts the byte 255 at 0 in P2.
fn set(targets: &mut Targets) -> Result<(), Fail> {
    let process = targets.process_mut(2).ok_or("no process")?;
    process.memory.write_range(0, &[255])?;
    Ok(())
}

/// Whether the page that is shared is the image, with zeros behind it; nothing where it isn't shared.
fn is_of_image(targets: &Targets, process: u32, page: u32) -> Option<bool> {
    let kept = targets.process(process)?.memory.shared(page)?.as_slice();
    let zeros = kept.iter().skip(12).all(|byte| *byte == 0);
    Some(kept.len() == 256 && kept.starts_with(&PROGRAM) && zeros)
}

/// The first four bytes of a process.
fn front(targets: &Targets, process: u32) -> Option<[u8; 4]> {
    let memory = &targets.process(process)?.memory;
    Some([
        memory.read(0)?,
        memory.read(1)?,
        memory.read(2)?,
        memory.read(3)?,
    ])
}

/// A process shares its first page with the image as this says, and begins with this byte. Of a second page it has nothing.
fn assert_page(
    rt: &(impl Abort + AllocGlobal),
    targets: &Targets,
    process: u32,
    shared: Option<bool>,
    byte: u8,
) {
    assert_eq!(rt; is_of_image(targets, process, 0), shared, "P{process}");
    assert_eq!(rt; is_of_image(targets, process, 1), None, "P{process}");
    assert_eq!(rt;
        front(targets, process),
        Some([byte, 0, 80, 0]),
        "P{process}"
    );
}

fn write_in_one(rt: &(impl Abort + AllocGlobal), targets: &mut Targets) -> Result<(), Fail> {
    start(targets)?;
    set(targets)?;
    assert_page(rt, targets, 1, Some(true), 147);
    assert_page(rt, targets, 2, None, 255);
    assert_page(rt, targets, 3, Some(true), 147);
    Ok(())
}

#[test]
fn a_page_is_shared_until_it_is_written(rt: HostRuntime) -> Result<(), Fail> {
    let mut targets = targets(rt.alloc())?;
    write_in_one(&rt, &mut targets)
}
