//! The feeds of a folder: each pair of NAME.in and NAME.out is one, in the order of the names'
//! bytes.

use crate::fault::Fault;
use crate::late::{LateReader, LateWriter};
use flow_core::MAX_FEEDERS;
use std::alloc::{AllocError, Global};
use std::io::{ErrorKind, Read, Write};
use std::{fs, io};

/// A feed as it was found: its name, where its filings come from, and where their answers go.
#[derive(Drop)]
pub struct Found<R, W> {
    pub name: String,
    pub reader: R,
    pub writer: W,
}

/// What finds the feeds of a folder.
pub trait Feeds {
    type Reader: Read + Send + Drop;

    type Writer: Write + Send + Drop;

    /// The feeds of the folder, 1 to 64 of them, in order. None of their files is opened.
    fn find(&self, folder: &str) -> Result<Vec<Found<Self::Reader, Self::Writer>>, Fault>;
}

/// The folders of the system.
#[derive(Drop)]
pub struct SystemFeeds<'a> {
    pub rt: &'a HostRuntime,
}

impl<'a> SystemFeeds<'a> {
    fn alloc(&self) -> Global {
        self.rt.alloc()
    }

    /// The feed of this name.
    fn feed(
        &self,
        folder: &str,
        name: String,
    ) -> Result<Found<LateReader<'a>, LateWriter<'a>>, Fault> {
        let source = path_of(self.alloc(), folder, name.as_str(), SOURCE)?;
        let sink = path_of(self.alloc(), folder, name.as_str(), SINK)?;
        if let Ok(found) = fs::metadata(self.rt, sink.as_str()) {
            if found.is_file() && found.len() > 0 {
                return Err(Fault::BadFeeds);
            }
        }
        Ok(Found {
            name,
            reader: LateReader::new(self.rt, source),
            writer: LateWriter::new(self.rt, sink),
        })
    }

    /// The names in a folder that end as those of sources and of sinks do, without these ends.
    fn ends(&self, folder: &str) -> Result<Ends, Fault> {
        let mut ends = Ends {
            sources: Vec::new(self.alloc()),
            sinks: Vec::new(self.alloc()),
        };
        let entries = match fs::read_dir(self.rt, folder) {
            Ok(entries) => entries,
            Err(error) => return Err(why_not_listed(&error)),
        };
        for entry in entries {
            match entry {
                Ok(entry) => ends.take_in(self.alloc(), entry.file_name())?,
                Err(error) => return Err(why_not_listed(&error)),
            }
        }
        Ok(ends)
    }
}

impl<'a> Feeds for SystemFeeds<'a> {
    type Reader = LateReader<'a>;

    type Writer = LateWriter<'a>;

    fn find(&self, folder: &str) -> Result<Vec<Found<LateReader<'a>, LateWriter<'a>>>, Fault> {
        let names = self.ends(folder)?.into_pairs()?;
        let mut feeds = Vec::new(self.alloc());
        for name in names {
            let feed = self.feed(folder, name)?;
            if feeds.push(feed).is_err() {
                return Err(Fault::OutOfMemory);
            }
        }
        Ok(feeds)
    }
}

const SOURCE: &str = ".in";

const SINK: &str = ".out";

/// The most bytes of a feed's name.
const MAX_NAME: usize = 32;

/// Names of feeds, as a folder lists them.
#[derive(Drop)]
struct Ends {
    sources: Vec<String>,
    sinks: Vec<String>,
}

impl Ends {
    /// Takes in a name of the folder. One with another end is passed over.
    fn take_in(&mut self, alloc: Global, name: &str) -> Result<(), Fault> {
        if let Some(name) = name.strip_suffix(SOURCE) {
            return add(alloc, &mut self.sources, name);
        }
        match name.strip_suffix(SINK) {
            Some(name) => add(alloc, &mut self.sinks, name),
            None => Ok(()),
        }
    }

    /// The names in their order, if there are any and each source has its sink and each sink its
    /// source.
    fn into_pairs(self) -> Result<Vec<String>, Fault> {
        let Ends {
            mut sources,
            mut sinks,
        } = self;
        sources.sort_unstable();
        sinks.sort_unstable();
        if sources.is_empty() || sources != sinks {
            return Err(Fault::BadFeeds);
        }
        Ok(sources)
    }
}

/// Adds a name, if there can be a feed of that name and one more feed.
fn add(alloc: Global, names: &mut Vec<String>, name: &str) -> Result<(), Fault> {
    if !is_name(name) || names.len() >= MAX_FEEDERS {
        return Err(Fault::BadFeeds);
    }
    match push_name(alloc, names, name) {
        Ok(()) => Ok(()),
        Err(_) => Err(Fault::OutOfMemory),
    }
}

fn push_name(alloc: Global, names: &mut Vec<String>, name: &str) -> Result<(), AllocError> {
    names.push(String::from_str(alloc, name)?)?;
    Ok(())
}

/// Whether a feed may have this name: 1 to 32 letters, digits, hyphens and underscores.
fn is_name(name: &str) -> bool {
    !name.is_empty() && name.len() <= MAX_NAME && name.bytes().all(|byte| is_of_name(byte))
}

fn is_of_name(byte: u8) -> bool {
    byte.is_ascii_alphanumeric() || byte == b'-' || byte == b'_'
}

/// The path of a feed's file.
fn path_of(alloc: Global, folder: &str, name: &str, end: &str) -> Result<String, Fault> {
    match format!(in alloc; "{folder}/{name}{end}") {
        Ok(path) => Ok(path),
        Err(_) => Err(Fault::OutOfMemory),
    }
}

/// Why a folder or a name in it can't be read.
fn why_not_listed(error: &io::Error) -> Fault {
    match error.kind() {
        ErrorKind::OutOfMemory => Fault::OutOfMemory,
        _ => Fault::BadFeeds,
    }
}
