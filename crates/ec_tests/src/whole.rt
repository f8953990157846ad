//! A whole run, and whether it comes to what it is to come to.
//!
//! The contracts of `run` and `serve` are long, so one function alone calls each.
use crate::texts::text_of;
use ec_layers::tables::bytes_of;
use ec_lists::NoMemory;
use ec_outside::{MemFolder, MemSink, MemSource};
use ec_server::{run, serve};
use ec_theory::{MOST_BYTES, accept};
use std::alloc::Global;
use std::process::Abort;
use std::string::String;

/// More than any reply or line here has.
const ROOM: usize = 1 << 22;

/// A run: what it begins with, which calls fail, and what it is to come to. In its texts `|` is a line end, as in a table.
#[derive(Clone, Copy)]
pub struct Case<'a> {
    /// The words that the program is called with, parted by commas.
    pub words: &'a str,
    /// What the file `t.ec` has: a theory by its name in `texts`, with or without more clauses, or a theory as it is written.
    pub theory: &'a str,
    /// What the file `a.lines` has.
    pub lines: &'a str,
    /// What the file `a.cert` has.
    pub certificate: &'a str,
    /// The lines that are read, or the name of a text in `texts` and what stands behind it.
    pub input: &'a str,
    /// How many bytes of the input a read gives at most. There is a run for each of these numbers, which are parted by commas.
    pub reads: &'a str,
    /// How many bytes a write takes at most.
    pub writes: usize,
    pub failing: Failing,
    /// `serve` alone runs, and takes at most so many bytes.
    pub limit: Option<u64>,
    pub status: u8,
    pub written: &'a str,
}

/// The number of the call that fails, of those on the folder, the reads, the writes and the flushes. The first is 1; with 0 none
/// fails.
#[derive(Clone, Copy)]
pub struct Failing {
    pub file: u64,
    pub read: u64,
    pub write: u64,
    pub flush: u64,
}

/// `serve` under no theory, without lines, where nothing fails.
pub const SERVED: Case<'static> = Case {
    words: "serve,t.ec",
    theory: "",
    lines: "",
    certificate: "",
    input: "",
    reads: "4096",
    writes: ROOM,
    failing: Failing {
        file: 0,
        read: 0,
        write: 0,
        flush: 0,
    },
    limit: None,
    status: 0,
    written: "",
};

/// Words as the program gets them.
fn words_of(rt: &impl Abort, alloc: Global, text: &str) -> Vec<String> {
    let mut words = Vec::new(alloc);
    if !text.is_empty() {
        for word in text.split(',') {
            let word = String::from_str(alloc, word).expect(rt, "memory");
            words.push(word).expect(rt, "memory");
        }
    }
    words
}

/// A folder with a theory, named `t.ec`, lines, named `a.lines`, and a certificate, named `a.cert`, whose calls of these numbers fail.
fn folder(
    alloc: Global,
    theory: &[u8],
    lines: &[u8],
    certificate: &[u8],
    failing: &[u64],
) -> Result<MemFolder, NoMemory> {
    let mut files = MemFolder::new(alloc, failing)?;
    files.add("t.ec", theory)?;
    files.add("a.lines", lines)?;
    files.add("a.cert", certificate)?;
    Ok(files)
}

/// The input of a run, which comes in pieces of at most `most` bytes, and of one at least.
fn input_of(rt: &impl Abort, alloc: Global, case: &Case<'_>, most: usize) -> MemSource {
    let lines = text_of(rt, alloc, case.input);
    MemSource::new(alloc, &lines, most.max(1), &[case.failing.read]).expect(rt, "memory")
}

/// The output of a run, which takes a byte at least at a write.
fn output_of(rt: &impl Abort, alloc: Global, case: &Case<'_>) -> MemSink {
    let failing = &case.failing;
    MemSink::new(
        alloc,
        ROOM,
        case.writes.max(1),
        &[failing.write],
        &[failing.flush],
    )
    .expect(rt, "memory")
}

/// The status of a run with the words of a case.
fn ran(
    rt: &impl Abort,
    alloc: Global,
    case: &Case<'_>,
    input: &mut MemSource,
    output: &mut MemSink,
) -> u8 {
    let words = words_of(rt, alloc, case.words);
    let theory = text_of(rt, alloc, case.theory);
    let lines = bytes_of(alloc, case.lines).expect(rt, "memory");
    let certificate = bytes_of(alloc, case.certificate).expect(rt, "memory");
    let files = folder(alloc, &theory, &lines, &certificate, &[case.failing.file]);
    let mut files = files.expect(rt, "memory");
    run(alloc, &words, &mut files, input, output)
}

/// The status of serving at most `limit` bytes under the theory of a case.
fn served(
    rt: &impl Abort,
    alloc: Global,
    case: &Case<'_>,
    limit: u64,
    input: &mut MemSource,
    output: &mut MemSink,
) -> u8 {
    let theory = text_of(rt, alloc, case.theory);
    assert!(rt; theory.len() <= MOST_BYTES);
    let checked = accept(alloc, &theory).ok().expect(rt, "a theory");
    serve(alloc, checked, input, output, limit).code()
}

/// The status of a case.
fn status_of(
    rt: &impl Abort,
    alloc: Global,
    case: &Case<'_>,
    input: &mut MemSource,
    output: &mut MemSink,
) -> u8 {
    match case.limit {
        None => ran(rt, alloc, case, input, output),
        Some(limit) => served(rt, alloc, case, limit, input, output),
    }
}

/// Whether a run ends with its status and has written exactly its bytes, where the input comes in pieces of at most `most` bytes.
pub fn comes_out(rt: &impl Abort, alloc: Global, case: &Case<'_>, most: usize) -> bool {
    let mut input = input_of(rt, alloc, case, most);
    let mut output = output_of(rt, alloc, case);
    let status = status_of(rt, alloc, case, &mut input, &mut output);
    let written = bytes_of(alloc, case.written).expect(rt, "memory");
    status == case.status && output.bytes() == written.as_slice()
}
