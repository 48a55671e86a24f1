ghost use Rattle.std.specs.Prelude.{None};

use dq_base::{Numbers64, Text};
use dq_outside::*;
use std::alloc::Global;
use std::process::Abort;
use std::test::Fail;
use std::{env, fs, process};

fn text(rt: &impl Abort, alloc: Global, bytes: &[u8]) -> Text {
    Text::copy_of(alloc, bytes).ok().expect(rt, "memory")
}

fn calls(rt: &impl Abort, alloc: Global, numbers: &[u64]) -> Numbers64 {
    Numbers64::from_vec(numbers.to_vec(alloc).ok().expect(rt, "memory"))
}

/// A file `a` that holds `hello`, and a later one of the same name.
fn hello(rt: &impl Abort, alloc: Global) -> NamedFiles {
    let mut files = NamedFiles::new(alloc);
    for bytes in [b"hello", b"later"] {
        let file = NamedFile {
            name: text(rt, alloc, b"a"),
            bytes: text(rt, alloc, bytes),
        };
        assert!(rt; files.push(file).is_ok());
    }
    files
}

/// What a read answers: the bytes, or the fault.
fn answer<F: Folder>(
    folder: &mut F,
    alloc: Global,
    name: &Text,
    room: u64,
) -> Result<Text, FolderFault> {
    folder.read(alloc, name, room)
}

fn check_read<F: Folder>(
    rt: &impl Abort,
    alloc: Global,
    folder: &mut F,
    name: &[u8],
    room: u64,
    want: Result<&[u8], FolderFault>,
) {
    match answer(folder, alloc, &text(rt, alloc, name), room) {
        Ok(bytes) => assert_eq!(rt; Ok(bytes.bytes()), want),
        Err(fault) => assert_eq!(rt; Err(fault), want),
    }
}

#[test]
fn folders_in_memory_answer(rt: HostRuntime) {
    let alloc = rt.alloc();
    let mut folder = MemFolder::new(hello(&rt, alloc), calls(&rt, alloc, &[2, 3]));
    check_read(&rt, alloc, &mut folder, b"a", 5, Ok(b"hello"));
    check_read(&rt, alloc, &mut folder, b"a", 5, Err(FolderFault::Failed));
    check_read(&rt, alloc, &mut folder, b"a", 4, Err(FolderFault::TooLong));
    check_read(&rt, alloc, &mut folder, b"b", 5, Err(FolderFault::Failed));
    check_read(&rt, alloc, &mut folder, b"a", 9, Ok(b"hello"));

    let mut sure = SureFolder::new(hello(&rt, alloc));
    check_read(&rt, alloc, &mut sure, b"a", 5, Ok(b"hello"));
    check_read(&rt, alloc, &mut sure, b"a", 4, Err(FolderFault::TooLong));
    check_read(&rt, alloc, &mut sure, b"b", 0, Ok(b""));
}

#[test]
fn disk_folder_reads(rt: HostRuntime) -> Result<(), Fail> {
    let alloc = rt.alloc();
    let name = format!(in alloc; "dq-outside-{}", process::id(rt.process()))?;
    let path = env::temp_dir(&rt)?.join(alloc, name.as_str())?;
    fs::write(&rt, path.as_path(), "hello")?;
    let mut folder = DiskFolder::new(&rt);
    let here = path
        .as_path()
        .to_str()
        .ok_or("a path that is no text")?
        .as_bytes();
    check_read(&rt, alloc, &mut folder, here, 5, Ok(b"hello"));
    check_read(&rt, alloc, &mut folder, here, u64::MAX, Ok(b"hello"));
    check_read(&rt, alloc, &mut folder, here, 4, Err(FolderFault::TooLong));
    check_read(&rt, alloc, &mut folder, here, 0, Err(FolderFault::TooLong));
    fs::remove_file(&rt, path.as_path())?;
    check_read(&rt, alloc, &mut folder, here, 5, Err(FolderFault::Failed));
    check_read(
        &rt,
        alloc,
        &mut folder,
        b"/tmp",
        5,
        Err(FolderFault::Failed),
    );
    check_read(
        &rt,
        alloc,
        &mut folder,
        b"\xff",
        5,
        Err(FolderFault::Failed),
    );
    Ok(())
}

/// What `write_all` answers at a sink in memory that fails in these calls and takes so many bytes in one, and what it holds.
fn check_written(
    rt: &impl Abort,
    alloc: Global,
    fails: &[u64],
    most: usize,
    want: Result<(), SinkFault>,
    held: &[u8],
) {
    assert!(rt; 0 < most);
    let mut sink = MemSink::short(alloc, calls(rt, alloc, fails), most);
    assert_eq!(rt; write_all(&mut sink, b"hello"), want);
    assert_eq!(rt; sink.bytes(), held);
}

/// A sink that takes a byte in each of so many calls, and then wants memory.
#[derive(Drop)]
struct WantingSink {
    left: u32,
}

impl Sink for WantingSink {
    ghost written = { λ s. None };

    ghost faults = { λ s. 0 };

    fn write(&mut self, piece: &[u8]) -> Result<usize, SinkFault> {
        if self.left == 0 {
            return Err(SinkFault::Memory);
        }
        self.left -= 1;
        Ok(piece.len().min(1))
    }
}

#[test]
fn faults_of_a_sink_stay_apart(rt: HostRuntime) {
    let alloc = rt.alloc();
    check_written(&rt, alloc, &[], 5, Ok(()), b"hello");
    check_written(&rt, alloc, &[], 1, Ok(()), b"hello");
    check_written(&rt, alloc, &[6], 1, Ok(()), b"hello");
    check_written(&rt, alloc, &[1], 5, Err(SinkFault::Failed), b"");
    check_written(&rt, alloc, &[3], 2, Err(SinkFault::Failed), b"hell");
    check_written(&rt, alloc, &[9, 2], 1, Err(SinkFault::Failed), b"h");

    let mut sink = WantingSink { left: 5 };
    assert_eq!(rt; write_all(&mut sink, b"hello"), Ok(()));
    assert_eq!(rt; write_all(&mut sink, b"more"), Err(SinkFault::Memory));
    sink.left = 3;
    assert_eq!(rt; write_all(&mut sink, b"more"), Err(SinkFault::Memory));
}

#[test]
fn sinks_in_memory_go_on(rt: HostRuntime) {
    let alloc = rt.alloc();
    let mut sink = MemSink::new(alloc, calls(&rt, alloc, &[2]));
    assert_eq!(rt; write_all(&mut sink, b"one"), Ok(()));
    assert_eq!(rt; write_all(&mut sink, b"two"), Err(SinkFault::Failed));
    assert_eq!(rt; write_all(&mut sink, b"three"), Ok(()));
    assert_eq!(rt; sink.bytes(), b"onethree".as_slice());

    let mut sure = SureSink::new(alloc);
    assert_eq!(rt; write_all(&mut sure, b"all of it"), Ok(()));
    assert_eq!(rt; sure.bytes(), b"all of it".as_slice());
}

#[test]
fn standard_output_takes(rt: HostRuntime) {
    let mut out = OutSink::new(&rt);
    assert_eq!(rt; write_all(&mut out, b"a line\n"), Ok(()));
    PassGate.pass(1, 1);
}
