//! Reads single arguments.
use flow_plans::MAX_ENTRIES;
use fpl_message::{Filing, FilingFault, Order, Reading, Spot};
use fpl_text::{Minute, read_moment};
use std::alloc::{AllocError, Global};

/// The greatest number that has the form of a rate.
pub const GREATEST_RATE: u32 = 999;

/// The number of an entry, if a word is one.
pub fn entry_of(word: &str) -> Option<u32> {
    match word.parse::<u32>() {
        Ok(number) if number <= MAX_ENTRIES => Some(number),
        _ => None,
    }
}

/// The time that a word yymmddhhmm is.
pub fn moment_of(word: &str) -> Option<Minute> {
    read_moment(word.as_bytes())
}

/// Whether a word may name a regulation: letters and digits alone, apart from what follows an `@`.
pub fn may_be_name(word: &str) -> bool {
    let id = match word.split_once('@') {
        Some((id, _)) => id,
        None => word,
    };
    id.bytes().all(|byte| byte.is_ascii_alphanumeric())
}

/// The first and the last of the rates that a word gives: A..B, or one rate.
pub fn rates_of(word: &str) -> Option<(u32, u32)> {
    let (first, last) = word.split_once("..").unwrap_or((word, word));
    let first = first.parse::<u32>().ok()?;
    let last = last.parse::<u32>().ok()?;
    if first <= last && last <= GREATEST_RATE {
        Some((first, last))
    } else {
        None
    }
}

/// These words with capital letters for small ones, and a space between them.
pub fn capitals_of(alloc: Global, words: [&str; 4]) -> Result<String, AllocError> {
    let mut text = String::new(alloc);
    for word in words {
        if !text.is_empty() {
            text.push(' ')?;
        }
        for letter in word.chars() {
            text.push(letter.to_ascii_uppercase())?;
        }
    }
    Ok(text)
}

/// The order that would open a regulation of this name, up to its rate.
pub fn order_of(alloc: Global, id: &str, words: [&str; 4]) -> Result<String, AllocError> {
    let words = capitals_of(alloc, words)?;
    let words = words.as_str();
    format!(in alloc; "OPEN {id} {words}")
}

/// The point that an order names by these words, if they have that form.
pub fn spot_of(alloc: Global, kind: &str, place: &str) -> Result<Option<Spot>, AllocError> {
    let mut text = order_of(alloc, "A", [kind, place, "0001010000", "0001010001"])?;
    text.push_str(" 1")?;
    let filing = match Filing::new(alloc, text.as_bytes()) {
        Ok(filing) => filing,
        Err(FilingFault::TooLong) => return Ok(None),
        Err(FilingFault::OutOfMemory) => return Err(AllocError),
    };
    match filing.reading() {
        Reading::Ord(Order::OpenReg(order)) => Ok(Some(order.place)),
        _ => Ok(None),
    }
}
