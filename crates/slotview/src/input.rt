//! Where the journal or the store is read from.
use crate::fault::Fault;
use std::fs::{File, Files};
use std::io;
use std::io::{Read, Write};

/// Standard input, or a file.
#[derive(Drop)]
pub enum Input<R, F> {
    Standard(R),
    File(F),
}

impl<R: Read, F: Read> Read for Input<R, F> {
    fn read(&mut self, buf: &mut [u8]) -> io::Result<usize> {
        match self {
            Input::Standard(reader) => reader.read(buf),
            Input::File(file) => file.read(buf),
        }
    }
}

/// Opens the file of this name, or takes standard input. Writes a line if the file can't be opened.
pub fn open_input<F: Files, R: Read + Drop, E: Write>(
    files: &F,
    name: Option<&str>,
    standard: R,
    errors: &mut E,
) -> Result<Input<R, F::File>, Fault> {
    let Some(name) = name else {
        return Ok(Input::Standard(standard));
    };
    match File::open(files, name) {
        Ok(file) => Ok(Input::File(file)),
        Err(_) => {
            let _told = writeln!(errors, "slotview: can't open {name}");
            Err(Fault::NotThere)
        }
    }
}
