//! The program over real files: what contracts cannot say of the host.

use crate::{run_without_words, run_words};
use ae_outside::{Files, FilesErr, HostFiles, read_whole, write_whole};
use std::alloc::{AllocError, Global};
use std::test::Fail;
use std::{fs, io};
use synth_cmd::{DONE, MEMORY, READ_FAULT, REFUSED, WORDS, WRITE_FAULT};

static SOURCE: &[u8] = b".i 2\n.o 1\n11 1\n.e\n";

static NET: &[u8] =
    b".model andexor\n.inputs x1 x2 _c\n.outputs f1\n.names x1 x2 _t1\n11 1\n.names _c _t1 f1\n10 1\n01 1\n.end\n";

static VECTORS: &[u8] =
    b"andexor-vectors 1\nform reddy\ninputs x1 x2 _c\noutputs f1\npolarity 11\nvector 000 0\nvector 110 1\nvector 001 1\nvector 111 0\nvector 010 0\nvector 100 0\nend\n";

fn host_files(rt: HostRuntime) -> Result<HostFiles<HostRuntime>, AllocError> {
    HostFiles::new(rt.alloc(), rt).map_err(|_| AllocError)
}

fn words(alloc: Global, names: [&str; 3]) -> Result<Vec<String>, AllocError> {
    let mut words = Vec::new(alloc);
    words.push(String::from_str(alloc, "synth")?)?;
    for name in names {
        words.push(String::from_str(alloc, name)?)?;
    }
    Ok(words)
}

fn writes(files: &mut HostFiles<HostRuntime>, name: &str, text: &[u8]) -> bool {
    write_whole(files, name, text).is_ok()
}

fn holds(alloc: Global, files: &mut HostFiles<HostRuntime>, name: &str, text: &[u8]) -> bool {
    read_whole(alloc, files, name, 100_000).is_ok_and(|bytes| bytes.as_slice() == text)
}

/// Whether a read at the place gives exactly these bytes.
fn gives(files: &mut HostFiles<HostRuntime>, name: &str, at: u64, bytes: &[u8; 4]) -> bool {
    let mut buffer = [0u8; 4];
    files.read(name, at, &mut buffer) == Ok(4) && buffer == *bytes
}

/// The status of a synthesis with these names.
fn status_of(rt: HostRuntime, names: [&str; 3]) -> Result<u8, AllocError> {
    Ok(run_words(rt, &words(rt.alloc(), names)?))
}

fn writes_texts(rt: HostRuntime) -> Result<bool, AllocError> {
    let alloc = rt.alloc();
    let mut files = host_files(rt)?;
    let wrote = writes(&mut files, "real.pla", SOURCE);
    let status = status_of(rt, ["real.pla", "real.blif", "real.vec"])?;
    Ok(
        wrote
            && status == DONE
            && holds(alloc, &mut files, "real.blif", NET)
            && holds(alloc, &mut files, "real.vec", VECTORS),
    )
}

/// The texts are written to the host's files, and read from them.
#[test]
fn writes_real_files(rt: HostRuntime) -> Result<(), Fail> {
    let written = writes_texts(rt)?;
    assert!(rt; written);
    Ok(())
}

fn appends_and_reads(files: &mut HostFiles<HostRuntime>) -> bool {
    let mut buffer = [0u8; 8];
    writes(files, "real.txt", b"a longer text that stands")
        && files.create("real.txt") == Ok(())
        && files.append("real.txt", b"ab") == Ok(2)
        && files.append("real.txt", b"cd") == Ok(2)
        && files.read("real.txt", 1, &mut buffer) == Ok(3)
        && buffer == *b"bcd\0\0\0\0\0"
}

/// A create empties what stands, an append adds at the end, and a read begins at its place.
#[test]
fn appends_at_the_end_and_reads_at_a_place(rt: HostRuntime) -> Result<(), Fail> {
    let mut files = host_files(rt)?;
    let held = appends_and_reads(&mut files);
    assert!(rt; held);
    Ok(())
}

fn long_text(alloc: Global) -> Result<Vec<u8>, AllocError> {
    let mut text = Vec::new(alloc);
    for k in 0..20_000u32 {
        text.push((k % 251) as u8)?;
    }
    Ok(text)
}

fn comes_back(rt: HostRuntime) -> Result<bool, AllocError> {
    let text = long_text(rt.alloc())?;
    let mut files = host_files(rt)?;
    Ok(writes(&mut files, "real.long", &text) && holds(rt.alloc(), &mut files, "real.long", &text))
}

/// More than one read asks for.
#[test]
fn a_long_text_comes_back(rt: HostRuntime) -> Result<(), Fail> {
    let back = comes_back(rt)?;
    assert!(rt; back);
    Ok(())
}

fn reads_on(rt: HostRuntime, files: &mut HostFiles<HostRuntime>) -> bool {
    writes(files, "kept.txt", b"old text")
        && writes(files, "new.txt", b"NEW TEXT")
        && writes(files, "more.txt", b"and more")
        && gives(files, "kept.txt", 0, b"old ")
        && fs::rename(&rt, "new.txt", "kept.txt").is_ok()
        && gives(files, "kept.txt", 4, b"text")
        && gives(files, "kept.txt", 0, b"NEW ")
        && gives(files, "more.txt", 4, b"more")
        && gives(files, "kept.txt", 4, b"TEXT")
        && gives(files, "kept.txt", 2, b"W TE")
        && files.append("kept.txt", b" AND ON") == Ok(7)
        && gives(files, "kept.txt", 6, b"XT A")
        && files.create("kept.txt") == Ok(())
        && files.read("kept.txt", 10, &mut [0u8; 4]) == Ok(0)
}

/// A text that is replaced while it is read is read on to its end. A read from the start, at another place or of another name is one of what stands then.
#[test]
fn reads_on_where_it_stands(rt: HostRuntime) -> Result<(), Fail> {
    let mut files = host_files(rt)?;
    let read = reads_on(rt, &mut files);
    assert!(rt; read);
    Ok(())
}

fn fails(files: &mut HostFiles<HostRuntime>) -> bool {
    files.read("absent", 0, &mut [0u8; 4]) == Err(FilesErr::Failed)
        && files.create("absent/file") == Err(FilesErr::Failed)
        && files.append("absent/file", b"a") == Err(FilesErr::Failed)
}

/// The host's errors are failures.
#[test]
fn host_errors_are_failures(rt: HostRuntime) -> Result<(), Fail> {
    let mut files = host_files(rt)?;
    let failed = fails(&mut files);
    assert!(rt; failed);
    Ok(())
}

fn ends_with_faults(rt: HostRuntime) -> Result<bool, AllocError> {
    let mut files = host_files(rt)?;
    let wrote = writes(&mut files, "fault.pla", SOURCE) && writes(&mut files, "bad.pla", b".x\n");
    Ok(
        wrote
            && status_of(rt, ["absent", "fault.blif", "fault.vec"])? == READ_FAULT
            && status_of(rt, ["fault.pla", "absent/net", "fault.vec"])? == WRITE_FAULT
            && status_of(rt, ["bad.pla", "fault.blif", "fault.vec"])? == REFUSED,
    )
}

/// The faults of the host end the program with their statuses.
#[test]
fn faults_have_statuses(rt: HostRuntime) -> Result<(), Fail> {
    let ended = ends_with_faults(rt)?;
    assert!(rt; ended);
    Ok(())
}

/// Want of memory for the words, and a word that is no text.
#[test]
fn words_that_cannot_be_had(rt: HostRuntime) {
    let wanting = run_without_words(rt, &io::Error::from(io::ErrorKind::OutOfMemory));
    let no_text = run_without_words(rt, &io::Error::from(io::ErrorKind::InvalidData));
    assert!(rt; wanting == MEMORY && no_text == WORDS);
}
