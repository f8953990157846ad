//! The program `ec`: a history of timed events, and what it says of properties.
#![tactic(auto)]

use ec_outside::{Buffered, RealFolder, RealSink, RealSource, Sink};
use ec_server::{Status, run};
use std::env;
use std::io::ErrorKind;
use std::process::ExitCode;
use std::string::String;

/// How many bytes of output are held back before they are handed on.
const OUTPUT_ROOM: usize = 65_536;

/// The words behind the program's name. If one of them is no text there are none, which is no form that the program takes.
/// `None`: memory ran out.
fn words(rt: &HostRuntime) -> Option<Vec<String>> {
    let mut words = Vec::new(rt.alloc());
    match env::args(rt) {
        Ok(all) => {
            for word in all.skip(1) {
                words.push(word).ok()?;
            }
            Some(words)
        }
        Err(error) if error.kind() == ErrorKind::OutOfMemory => None,
        Err(_) => Some(words),
    }
}

/// Does what the words ask for, over standard input, standard output and files. `None`: memory ran out first.
fn serve_words(rt: &HostRuntime) -> Option<u8> {
    let words = words(rt)?;
    let mut output = Buffered::new(rt.alloc(), RealSink::new(rt.stdout()), OUTPUT_ROOM).ok()?;
    let mut input = RealSource::new(rt.stdin());
    let mut files = RealFolder::new(rt);
    let status = run(rt.alloc(), &words, &mut files, &mut input, &mut output);
    let _ = output.flush(); // the usage line or the line about a theory may still wait
    Some(status)
}

fn main(rt: HostRuntime) -> ExitCode {
    match serve_words(&rt) {
        Some(status) => ExitCode::from(status),
        None => ExitCode::from(Status::NoMemory.code()),
    }
}
