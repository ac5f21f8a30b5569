//! The calls of `ae_outside`, over files in memory: with ample memory, and with a call that fails in mid-stream.

use ae_base::Memory;
use ae_outside::{
    Files, FilesErr, MemFiles, MemSink, ReadErr, Sink, WriteErr, put_all, read_whole, write_whole,
};
use std::alloc::Global;
use std::test::Fail;

fn holds(files: &MemFiles, name: &str, bytes: &[u8]) -> bool {
    match files.held(name) {
        Some(held) => held == bytes,
        None => false,
    }
}

/// Whether a read of at most so many bytes of `name` gives exactly these.
fn gives(alloc: Global, files: &mut MemFiles, limit: u64, wanted: &[u8]) -> bool {
    match read_whole(alloc, files, "name", limit) {
        Ok(bytes) => bytes.as_slice() == wanted,
        Err(_) => false,
    }
}

/// Whether a read of at most so many bytes of `name` ends with this error.
fn stops(alloc: Global, files: &mut MemFiles, limit: u64, wanted: ReadErr) -> bool {
    match read_whole(alloc, files, "name", limit) {
        Ok(_) => false,
        Err(error) => error == wanted,
    }
}

/// One file that is there, and pieces of two bytes.
fn in_pieces(alloc: Global) -> Result<MemFiles, Memory> {
    let mut files = MemFiles::new(alloc);
    files.put("other", b"old")?;
    files.piece(2);
    Ok(files)
}

fn are_written_and_read(alloc: Global) -> Result<bool, Memory> {
    let mut files = in_pieces(alloc)?;
    let wrote = write_whole(&mut files, "name", b"hello");
    Ok(
        wrote.is_ok()
            && holds(&files, "name", b"hello")
            && holds(&files, "other", b"old")
            && gives(alloc, &mut files, 5, b"hello")
            && stops(alloc, &mut files, 4, ReadErr::TooLong),
    )
}

#[test]
fn a_file_is_written_and_read_whole(rt: HostRuntime) -> Result<(), Fail> {
    let same = are_written_and_read(rt.alloc())?;
    assert!(rt; same);
    Ok(())
}

/// The second call of each kind is to fail.
fn fail_second_calls(files: &mut MemFiles) -> Result<(), Memory> {
    files.fail_append(2)?;
    files.fail_create(2)?;
    files.fail_read(2)
}

fn stop_at_faults(alloc: Global) -> Result<bool, Memory> {
    let mut files = in_pieces(alloc)?;
    fail_second_calls(&mut files)?;
    let wrote = write_whole(&mut files, "name", b"hello");
    let has_front = holds(&files, "name", b"he");
    let made = write_whole(&mut files, "name", b"new");
    Ok(
        wrote == Err(WriteErr::Fault)
            && has_front
            && made == Err(WriteErr::Fault)
            && stops(alloc, &mut files, 9, ReadErr::Fault),
    )
}

#[test]
fn calls_that_are_listed_fail(rt: HostRuntime) -> Result<(), Fail> {
    let stop = stop_at_faults(rt.alloc())?;
    assert!(rt; stop);
    Ok(())
}

/// Whether one call each of the three takes and gives what there is.
fn take_and_give(files: &mut MemFiles) -> Result<bool, FilesErr> {
    files.create("name")?;
    let took = files.append("name", b"abc")?;
    let mut buffer = [0; 4];
    let gave = files.read("name", 1, &mut buffer)?;
    Ok(took == 3 && gave == 2 && buffer == [b'b', b'c', 0, 0])
}

#[test]
fn single_calls(rt: HostRuntime) {
    let mut files = MemFiles::new(rt.alloc());
    assert!(rt; take_and_give(&mut files).unwrap_or(false));
}

/// A sink of pieces of two bytes whose third write is to fail.
fn sink_with_fault(alloc: Global) -> Result<MemSink, Memory> {
    let mut sink = MemSink::new(alloc);
    sink.piece(2);
    sink.fail_write(3)?;
    Ok(sink)
}

fn takes_a_front(alloc: Global) -> Result<bool, Memory> {
    let mut sink = sink_with_fault(alloc)?;
    let first = sink.write(b"ab");
    let second = put_all(&mut sink, b"three");
    Ok(first == Ok(2) && second == Err(WriteErr::Fault) && sink.bytes() == b"abth".as_slice())
}

fn takes_all(alloc: Global) -> bool {
    let mut sink = MemSink::new(alloc);
    put_all(&mut sink, b"one ").is_ok() && sink.bytes() == b"one ".as_slice()
}

#[test]
fn a_sink_takes_all_or_a_front(rt: HostRuntime) -> Result<(), Fail> {
    let alloc = rt.alloc();
    let front = takes_a_front(alloc)?;
    assert!(rt; front && takes_all(alloc));
    Ok(())
}
