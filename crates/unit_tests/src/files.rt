//! That the objects for files reach those of the system.
use std::fs;
use std::test::Fail;
use tcf_outside::{Files, RealFiles, RealSink, SinkRefusal, put_all};

/// What is read of a file, as it shows itself.
fn read_text(
    rt: &impl AllocGlobal,
    files: &mut impl Files,
    name: &str,
    limit: usize,
) -> Result<String, Fail> {
    let came = files.read(name, limit);
    Ok(format!(in rt.alloc(); "{came:?}")?)
}

#[test]
fn the_files_of_the_system_are_read(rt: HostRuntime) -> Result<(), Fail> {
    fs::write(&rt, "five_bytes", b"12345".as_slice())?;
    let mut files = RealFiles::new(&rt, rt.alloc());
    let five = "Ok(Whole(Sequence { inner: [49, 50, 51, 52, 53] }))";
    assert_eq!(rt; read_text(&rt, &mut files, "five_bytes", 5)?.as_str(), five);
    assert_eq!(rt;
        read_text(&rt, &mut files, "five_bytes", 4)?.as_str(),
        "Ok(Longer)"
    );
    assert_eq!(rt;
        read_text(&rt, &mut files, "no_such_file", 5)?.as_str(),
        "Err(Failed)"
    );
    assert_eq!(rt; read_text(&rt, &mut files, "/", 5)?.as_str(), "Err(Failed)");
    fs::remove_file(&rt, "five_bytes")?;
    Ok(())
}

/// Puts three bytes into a file of the system.
fn put(rt: &HostRuntime, name: &str) -> Result<Result<(), SinkRefusal>, Fail> {
    let mut sink = RealSink::new(fs::create(rt, name)?);
    Ok(put_all(&mut sink, b"abc"))
}

#[test]
fn a_file_of_the_system_takes_bytes_unless_it_is_full(rt: HostRuntime) -> Result<(), Fail> {
    assert_eq!(rt; put(&rt, "three_bytes")?, Ok(()));
    assert_eq!(rt; put(&rt, "/dev/full")?, Err(SinkRefusal::Failed));
    assert_eq!(rt; fs::read(&rt, "three_bytes")?.as_slice(), b"abc".as_slice());
    fs::remove_file(&rt, "three_bytes")?;
    Ok(())
}
