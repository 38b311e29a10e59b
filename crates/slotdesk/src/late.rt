//! Files that are opened by their first use, and so by the thread that uses them: to open a named
//! pipe is to wait until somebody has opened its other end.

use std::fs::File;
use std::io;
use std::io::{Read, Write};

/// Reads the file of this name, which the first read opens.
#[derive(Drop)]
pub struct LateReader<'a> {
    rt: &'a HostRuntime,
    name: String,
    file: Option<File>,
}

impl<'a> LateReader<'a> {
    pub fn new(rt: &'a HostRuntime, name: String) -> Self {
        LateReader {
            rt,
            name,
            file: None,
        }
    }
}

impl Read for LateReader<'_> {
    fn read(&mut self, buf: &mut [u8]) -> io::Result<usize> {
        if let Some(file) = &mut self.file {
            return file.read(buf);
        }
        let mut file = File::open(self.rt, self.name.as_str())?;
        let read = file.read(buf);
        self.file = Some(file);
        read
    }
}

/// Writes to the file of this name, which the first write opens for writing alone. The file must be
/// there, and what it holds isn't cut.
#[derive(Drop)]
pub struct LateWriter<'a> {
    rt: &'a HostRuntime,
    name: String,
    file: Option<File>,
}

impl<'a> LateWriter<'a> {
    pub fn new(rt: &'a HostRuntime, name: String) -> Self {
        LateWriter {
            rt,
            name,
            file: None,
        }
    }
}

impl Write for LateWriter<'_> {
    fn write(&mut self, buf: &[u8]) -> io::Result<usize> {
        if let Some(file) = &mut self.file {
            return file.write(buf);
        }
        let mut file = File::options()
            .write(true)
            .open(self.rt, self.name.as_str())?;
        let written = file.write(buf);
        self.file = Some(file);
        written
    }

    /// What was written is with the system already.
    fn flush(&mut self) -> io::Result<()> {
        Ok(())
    }
}
