//! The answers of inputs, outputs and folders, in memory and real: at worked calls, and where a call fails.
use ec_lists::NoMemory;
use ec_outside::{
    Buffered, Failed, Folder, FolderAnswer, MemFolder, MemSink, MemSource, RealFolder, RealSink,
    RealSource, Sink, Source, write_all,
};
use std::alloc::Global;
use std::io;
use std::io::{ErrorKind, Read, Write};
use std::process::Abort;

/// The room of a read, its answer, and what the buffer then holds.
type ReadRow = (usize, Result<usize, Failed>, &'static [u8]);

/// Reads in turn.
const READS: [ReadRow; 5] = [
    (4, Ok(2), b"ab\0\0"),
    (4, Err(Failed), b"ab\0\0"),
    (4, Ok(2), b"cd\0\0"),
    (1, Ok(1), b"ed\0\0"),
    (4, Ok(0), b"ed\0\0"),
];

/// What a read into the first bytes of a buffer answers.
fn read_into(source: &mut impl Source, buffer: &mut [u8], room: usize) -> Result<usize, Failed> {
    let room = room.min(buffer.len());
    source.read(&mut buffer[..room])
}

/// Whether a read answers as its row tells.
fn is_read(source: &mut impl Source, buffer: &mut [u8], row: &ReadRow) -> bool {
    read_into(source, &mut *buffer, row.0) == row.1 && *buffer == *row.2
}

/// Whether all reads answer as they are told.
fn are_read(source: &mut impl Source, buffer: &mut [u8]) -> bool {
    for row in READS.iter() {
        if !is_read(source, &mut *buffer, row) {
            return false;
        }
    }
    true
}

#[test]
fn a_source_in_memory_gives_pieces_and_fails_by_number(rt: HostRuntime) {
    let mut source = MemSource::new(rt.alloc(), b"abcde", 2, &[2]).expect(&rt, "memory");
    assert!(rt; are_read(&mut source, &mut [0; 4]));
}

/// Whether three bytes are written up to the write of this number, which fails, or all of them.
fn fails_at(rt: &impl Abort, alloc: Global, number: u64, written: &[u8]) -> bool {
    let mut sink = MemSink::new(alloc, 10, 1, &[number], &[]).expect(rt, "memory");
    write_all(&mut sink, b"ok\n").is_ok() == (number == 4) && sink.bytes() == written
}

#[test]
fn a_write_that_fails_leaves_the_bytes_before_it(rt: HostRuntime) {
    let writes: [&[u8]; 4] = [b"", b"o", b"ok", b"ok\n"];
    for (at, written) in writes.iter().enumerate() {
        assert!(rt;
            fails_at(&rt, rt.alloc(), at as u64 + 1, written),
            "write {at}"
        );
    }
}

/// A call on a sink, and its answer.
enum Call {
    Write(&'static [u8], Result<usize, Failed>),
    Flush(Result<(), Failed>),
}

/// Whether a call has its answer.
fn has_answer(sink: &mut impl Sink, call: &Call) -> bool {
    match call {
        Call::Write(bytes, answer) => sink.write(bytes) == *answer,
        Call::Flush(answer) => sink.flush() == *answer,
    }
}

/// Whether all calls have their answers.
fn has_answers(sink: &mut impl Sink, calls: &[Call]) -> bool {
    for call in calls {
        if !has_answer(sink, call) {
            return false;
        }
    }
    true
}

/// The calls on a sink with room for four bytes, which takes three at most at once and fails at its second flush.
const SMALL_SINK: [Call; 6] = [
    Call::Write(b"abcdef", Ok(3)),
    Call::Flush(Ok(())),
    Call::Write(b"def", Ok(1)),
    Call::Flush(Err(Failed)),
    Call::Write(b"", Ok(0)),
    Call::Write(b"ef", Err(Failed)),
];

#[test]
fn a_sink_in_memory_has_room_and_fails_by_number(rt: HostRuntime) {
    let mut sink = MemSink::new(rt.alloc(), 4, 3, &[], &[2]).expect(&rt, "memory");
    assert!(rt; has_answers(&mut sink, &SMALL_SINK) && sink.bytes() == b"abcd".as_slice());
}

/// A call on a sink that gathers bytes, and what the sink behind it then holds.
type GatherRow = (Call, &'static [u8]);

/// The calls on a sink that gathers four bytes, and what the sink behind it then holds, whose third write fails.
const BUFFERED_SINK: [GatherRow; 6] = [
    (Call::Write(b"abc", Ok(3)), b""),
    (Call::Write(b"de", Ok(2)), b"abc"),
    (Call::Flush(Ok(())), b"abcde"),
    (Call::Write(b"f", Ok(1)), b"abcde"),
    (Call::Flush(Err(Failed)), b"abcde"),
    (Call::Write(b"longer", Ok(6)), b"abcdeflonger"),
];

/// What the sink behind a sink holds.
fn bytes_behind(sink: &Buffered<MemSink>) -> &[u8] {
    sink.behind().bytes()
}

/// Whether all calls have their answers, and the sink behind then holds what it should.
fn are_gathered(sink: &mut Buffered<MemSink>) -> bool {
    for (call, held) in BUFFERED_SINK.iter() {
        if !has_answer(&mut *sink, call) || bytes_behind(sink) != *held {
            return false;
        }
    }
    true
}

#[test]
fn a_buffered_sink_hands_on_when_it_is_full_or_flushed(rt: HostRuntime) {
    let behind = MemSink::new(rt.alloc(), 20, 9, &[3], &[]).expect(&rt, "memory");
    let mut sink = Buffered::new(rt.alloc(), behind, 4).expect(&rt, "memory");
    assert!(rt; are_gathered(&mut sink));
}

/// Two files, in a folder that fails at the fourth and the fifth call.
fn two_files(alloc: Global) -> Result<MemFolder, NoMemory> {
    let mut folder = MemFolder::new(alloc, &[4, 5])?;
    folder.add("a", b"one")?;
    folder.add("b", b"")?;
    Ok(folder)
}

/// The name of a file, how long it may be, the answer, and what was read.
type FileRow = (&'static str, usize, Result<(), FolderAnswer>, &'static [u8]);

/// The file of each call in turn.
const FILES: [FileRow; 6] = [
    ("a", 3, Ok(()), b"one"),
    ("a", 2, Err(FolderAnswer::Long), b""),
    ("c", 9, Err(FolderAnswer::Failed), b""),
    ("a", 3, Err(FolderAnswer::Failed), b""),
    ("c", 9, Err(FolderAnswer::Failed), b""),
    ("b", 0, Ok(()), b""),
];

/// Whether a folder reads a file as its row tells.
fn is_file_read(alloc: Global, folder: &mut impl Folder, row: &FileRow) -> bool {
    let mut into = Vec::new(alloc);
    folder.read_whole(row.0, &mut into, row.1) == row.2 && into.as_slice() == row.3
}

/// Whether a folder reads all files as they are told.
fn are_files_read(alloc: Global, folder: &mut impl Folder) -> bool {
    for row in FILES.iter() {
        if !is_file_read(alloc, folder, row) {
            return false;
        }
    }
    true
}

#[test]
fn a_folder_in_memory_reads_whole_files(rt: HostRuntime) {
    let mut folder = two_files(rt.alloc()).expect(&rt, "memory");
    assert!(rt; are_files_read(rt.alloc(), &mut folder));
}

/// A device that always fails.
#[derive(Drop)]
struct Broken;

impl Read for Broken {
    fn read(&mut self, _into: &mut [u8]) -> io::Result<usize> {
        Err(io::Error::from(ErrorKind::TimedOut))
    }
}

impl Write for Broken {
    fn write(&mut self, _from: &[u8]) -> io::Result<usize> {
        Ok(0)
    }

    fn flush(&mut self) -> io::Result<()> {
        Err(io::Error::from(ErrorKind::TimedOut))
    }
}

#[test]
fn the_real_source_reads_from_memory(rt: HostRuntime) {
    let mut source = RealSource::new(b"ab".as_slice());
    assert!(rt; is_read(&mut source, &mut [0; 4], &READS[0]));
}

#[test]
fn the_real_source_fails_with_its_device(rt: HostRuntime) {
    let given = read_into(&mut RealSource::new(Broken), &mut [0; 4], 4);
    assert!(rt; given.is_err());
}

/// The calls on a sink whose device always fails.
const BROKEN_SINK: [Call; 3] = [
    Call::Write(b"", Ok(0)),
    Call::Write(b"a", Err(Failed)),
    Call::Flush(Err(Failed)),
];

#[test]
fn the_real_sink_writes_into_memory(rt: HostRuntime) {
    let mut text = Vec::new(rt.alloc());
    let result = write_all(&mut RealSink::new(&mut text), b"ab");
    assert!(rt; result.is_ok() && text.as_slice() == b"ab".as_slice());
}

#[test]
fn the_real_sink_fails_with_its_device(rt: HostRuntime) {
    assert!(rt; has_answers(&mut RealSink::new(Broken), &BROKEN_SINK));
}

/// A device that takes and gives seven bytes at most at once.
#[derive(Drop)]
struct Narrow<D>(D);

impl<R: Read> Read for Narrow<R> {
    fn read(&mut self, into: &mut [u8]) -> io::Result<usize> {
        let room = into.len().min(7);
        self.0.read(&mut into[..room])
    }
}

impl<W: Write> Write for Narrow<W> {
    fn write(&mut self, from: &[u8]) -> io::Result<usize> {
        let room = from.len().min(7);
        self.0.write(&from[..room])
    }

    fn flush(&mut self) -> io::Result<()> {
        self.0.flush()
    }
}

/// A text that takes many reads and writes.
const STORY: &[u8] =
    b"assert e1 5 push(lamp,1)\nassert e2 7 plug(lamp)\nholds on(lamp) 9\nretract e1\nwhy on(lamp) 9\nclashes\nquit\n";

/// Whether a source gives these bytes, in however many reads, and is then at its end.
fn gives(source: &mut impl Source, buffer: &mut [u8], wanted: &[u8]) -> bool {
    let mut rest = wanted;
    for _ in 0..=wanted.len() {
        match source.read(buffer) {
            Ok(0) => return rest.is_empty(),
            Ok(count) if rest.starts_with(&buffer[..count]) => rest = &rest[count..],
            _ => return false,
        }
    }
    false
}

#[test]
fn the_real_source_reads_back_what_the_real_sink_wrote(rt: HostRuntime) {
    let mut written = Vec::new(rt.alloc());
    let result = write_all(&mut RealSink::new(Narrow(&mut written)), STORY);
    let mut source = RealSource::new(Narrow(written.as_slice()));
    assert!(rt; result.is_ok() && gives(&mut source, &mut [0; 16], STORY));
}

/// The paths of some files, and the answer when ten bytes of each are asked for.
const PATHS: [(&str, Result<(), FolderAnswer>); 4] = [
    ("/dev/null", Ok(())),
    ("/dev/zero", Err(FolderAnswer::Long)),
    ("/no such file", Err(FolderAnswer::Failed)),
    ("/", Err(FolderAnswer::Failed)),
];

/// Whether a folder answers for a path as is told.
fn answers(
    alloc: Global,
    folder: &mut impl Folder,
    path: &str,
    wanted: &Result<(), FolderAnswer>,
) -> bool {
    folder.read_whole(path, &mut Vec::new(alloc), 10) == *wanted
}

/// Whether a folder answers for each path as is told.
fn answers_all(alloc: Global, folder: &mut impl Folder) -> bool {
    for (path, wanted) in PATHS.iter() {
        if !answers(alloc, folder, path, wanted) {
            return false;
        }
    }
    true
}

#[test]
fn the_real_folder_reads_files_of_the_system(rt: HostRuntime) {
    assert!(rt; answers_all(rt.alloc(), &mut RealFolder::new(&rt)));
}
