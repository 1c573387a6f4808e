//! Files and outputs, in memory and of the system.

use std::test::Fail;
use yt_io::{HostShelf, HostSink, MemShelf, MemSink, Shelf, ShelfFault, Sink};

fn file(rt: &HostRuntime, name: &str, bytes: &[u8]) -> Result<(String, Vec<u8>), Fail> {
    let alloc = rt.alloc();
    Ok((
        String::from_str(alloc, name)?,
        Vec::from_slice(alloc, bytes)?,
    ))
}

fn read<S: Shelf>(
    rt: &HostRuntime,
    shelf: &mut S,
    name: &str,
    limit: usize,
) -> Result<Vec<u8>, ShelfFault> {
    shelf.read(rt.alloc(), name, limit)
}

fn write<K: Sink>(sink: &mut K, bytes: &[u8]) -> bool {
    sink.write(bytes).is_ok()
}

#[test]
fn some_reads_fail(rt: HostRuntime) -> Result<(), Fail> {
    let files = vec![in rt.alloc(); file(&rt, "a", b"first")?, file(&rt, "a", b"second")?]?;
    let mut shelf = MemShelf::with(files, vec![in rt.alloc(); 2, 4, 5]?);
    assert_eq!(rt;
        read(&rt, &mut shelf, "a", 5)?.as_slice(),
        b"first".as_slice()
    );
    assert!(rt; read(&rt, &mut shelf, "a", 5) == Err(ShelfFault::Failed));
    assert!(rt; read(&rt, &mut shelf, "a", 4) == Err(ShelfFault::Long));
    assert!(rt; read(&rt, &mut shelf, "b", 5) == Err(ShelfFault::Failed));
    assert!(rt; read(&rt, &mut shelf, "a", 4) == Err(ShelfFault::Failed));
    assert_eq!(rt;
        read(&rt, &mut shelf, "a", 9)?.as_slice(),
        b"first".as_slice()
    );
    Ok(())
}

#[test]
fn some_writes_fail(rt: HostRuntime) -> Result<(), Fail> {
    let fails = vec![in rt.alloc(); (2, 3), (2, 1), (4, 9)]?;
    let mut sink = MemSink::with_room(rt.alloc(), 14, fails)?;
    assert!(rt; write(&mut sink, b"run\n"));
    assert!(rt; !write(&mut sink, b"outer"));
    assert!(rt; write(&mut sink, b"end"));
    assert!(rt; !write(&mut sink, b"all"));
    assert!(rt; !write(&mut sink, b"more"));
    assert!(rt; write(&mut sink, b""));
    assert_eq!(rt; sink.bytes(), b"run\noutendallm".as_slice());
    Ok(())
}

#[test]
fn a_file_of_the_system_is_read(rt: HostRuntime) -> Result<(), Fail> {
    let bytes = [b'x'; 5000];
    std::fs::write(&rt, "file", &bytes)?;
    std::fs::write(&rt, "empty", b"")?;
    let mut shelf = HostShelf::new(&rt);
    assert_eq!(rt;
        read(&rt, &mut shelf, "file", 5000)?.as_slice(),
        bytes.as_slice()
    );
    assert!(rt; read(&rt, &mut shelf, "file", 4999) == Err(ShelfFault::Long));
    assert!(rt; read(&rt, &mut shelf, "empty", 0)?.is_empty());
    assert!(rt; read(&rt, &mut shelf, "none", 9) == Err(ShelfFault::Failed));
    std::fs::remove_file(&rt, "file")?;
    std::fs::remove_file(&rt, "empty")?;
    Ok(())
}

#[test]
fn the_standard_output_is_written(rt: HostRuntime) -> Result<(), Fail> {
    let mut sink = HostSink::new(&rt);
    assert!(rt; write(&mut sink, b"written\n"));
    Ok(())
}
