//! The world outside: what is read, what is written, and a folder of files.
//!
//! Three traits, [`Source`], [`Sink`] and [`Folder`], whose contracts say what each call does where
//! the object tells its contents, and when a call fails. Each has an object in memory and a real
//! one. [`Text`] puts a short text together in place before it is written.
//!
//! **Proved**: the objects in memory keep their traits and fail where they were told to;
//! [`write_all`] writes a whole text, or a first part of it where a write fails; a call that does
//! not fail counts no fault. **Not said**: which bytes the real input, output and files pass, since
//! std does not tell. Start at `source.rt` and `sink.rt`; `specs/Streams.antt` and
//! `specs/Files.antt` have the words.
#![tactic(auto)]

mod buffered;
mod calls;
mod counted_calls;
mod folder;
mod mem_folder;
mod mem_sink;
mod mem_source;
mod named_files;
mod real;
mod sink;
mod source;
mod text;

pub use buffered::Buffered;
pub use folder::{Folder, FolderAnswer};
pub use mem_folder::MemFolder;
pub use mem_sink::MemSink;
pub use mem_source::MemSource;
pub use real::{RealFolder, RealSink, RealSource};
pub use sink::{Sink, write_all};
pub use source::{Failed, Source};
pub use text::Text;
