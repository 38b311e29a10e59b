//! Finds the names that are most like a word.
use std::alloc::{AllocError, Global};
use std::io::Write;
use strsim::osa_distance;

/// How many names are written at most.
const MOST: usize = 3;

/// How many characters of a word are compared. No name has more than 16.
const COMPARED: usize = 16;

/// A name, and the number of edits between the word and it.
#[derive(Drop)]
struct Near {
    edits: usize,
    name: String,
}

/// The names with the fewest edits between the word and them: at most three, in that order, of
/// equal ones the first. An edit leaves out, adds or changes a character, or exchanges two
/// neighbours. Small letters count as capital ones, and of a long word its beginning is compared.
#[derive(Drop)]
pub struct Nearest {
    alloc: Global,
    compared: String,
    names: Vec<Near>,
}

impl Nearest {
    /// Starts with no names.
    pub fn new(alloc: Global, word: &str) -> Result<Self, AllocError> {
        let mut compared = String::new(alloc);
        for letter in word.chars().take(COMPARED) {
            compared.push(letter.to_ascii_uppercase())?;
        }
        Ok(Nearest {
            alloc,
            compared,
            names: Vec::new(alloc),
        })
    }

    /// Whether a name is among them.
    fn has(&self, name: &str) -> bool {
        self.names.iter().any(|near| near.name.as_str() == name)
    }

    /// Considers a further name, and keeps it if it is one of the nearest.
    pub fn look_at(&mut self, name: &str) -> Result<(), AllocError> {
        if self.has(name) {
            return Ok(());
        }
        let edits = osa_distance(self.alloc, self.compared.as_str(), name)?;
        let place = self.names.iter().filter(|near| near.edits <= edits).count();
        if place < MOST {
            let near = Near {
                edits,
                name: String::from_str(self.alloc, name)?,
            };
            self.names.insert(place.min(self.names.len()), near)?;
            self.names.truncate(MOST);
        }
        Ok(())
    }

    /// Writes that there is none of this kind and name, and those that are most like it.
    pub fn tell<E: Write>(&self, kind: &str, word: &str, errors: &mut E) {
        let _told = write!(errors, "slotview: no {kind} {word}, ");
        let _begun = errors.write_all(if self.names.is_empty() {
            b"there are none"
        } else {
            b"most alike:"
        });
        for near in self.names.as_slice() {
            let name = near.name.as_str();
            let _named = write!(errors, " {name}");
        }
        let _ended = errors.write_all(b"\n");
    }
}
