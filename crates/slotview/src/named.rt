//! Regulations by the words that name them: NAME is the one of that name that was opened last,
//! NAME@ENTRY the one that this entry opened. Small letters count as capital ones.
use crate::alike::Nearest;
use crate::fault::Fault;
use flow_core::Core;
use flow_plans::Plan;
use flow_view::Opening;
use std::alloc::{AllocError, Global};
use std::io::Write;

/// The name of a regulation.
pub fn id_of(opening: &Opening) -> &str {
    str::from_utf8(opening.id().as_bytes()).unwrap_or("")
}

/// Whether a word names a regulation, whichever opening of that name it means.
fn may_name(word: &str, opening: &Opening) -> bool {
    match word.split_once('@') {
        Some((id, entry)) => {
            id_of(opening).eq_ignore_ascii_case(id)
                && entry.parse::<u32>().ok() == Some(opening.opened_by())
        }
        None => id_of(opening).eq_ignore_ascii_case(word),
    }
}

/// The regulation that a word names, as a slice of one. If there is none, writes the names that are
/// most like the word.
pub fn named<'a, E: Write>(
    alloc: Global,
    openings: &'a [Opening],
    word: &str,
    errors: &mut E,
) -> Result<&'a [Opening], Fault> {
    let mut found: &'a [Opening] = &[];
    for (index, opening) in openings.iter().enumerate() {
        if may_name(word, opening) {
            found = &openings[index..index + 1];
        }
    }
    if found.is_empty() {
        tell_regulations(alloc, openings, word, errors)?;
        return Err(Fault::NotThere);
    }
    Ok(found)
}

/// Writes that there is no regulation that a word names, and the names that are most like it.
fn tell_regulations<E: Write>(
    alloc: Global,
    openings: &[Opening],
    word: &str,
    errors: &mut E,
) -> Result<(), AllocError> {
    let mut nearest = Nearest::new(alloc, word)?;
    let by_entry = word.split_once('@').is_some();
    for opening in openings {
        let id = id_of(opening);
        if by_entry {
            let entry = opening.opened_by();
            let name = format!(in alloc; "{id}@{entry}")?;
            nearest.look_at(name.as_str())?;
        } else {
            nearest.look_at(id)?;
        }
    }
    nearest.tell("regulation", word, errors);
    Ok(())
}

/// Whether a plan is that of the flight of this identification.
pub fn is_of(plan: &Plan, ident: &str) -> bool {
    plan.key()
        .ident
        .as_bytes()
        .eq_ignore_ascii_case(ident.as_bytes())
}

/// Writes that there is no such flight, and the identifications that are most like it.
pub fn tell_flights<E: Write>(
    alloc: Global,
    core: &Core,
    ident: &str,
    errors: &mut E,
) -> Result<(), AllocError> {
    let mut nearest = Nearest::new(alloc, ident)?;
    for index in 0..core.setup().max_plans() {
        let Some(plan) = core.plan(index + 1) else {
            break;
        };
        nearest.look_at(str::from_utf8(plan.key().ident.as_bytes()).unwrap_or(""))?;
    }
    nearest.tell("flight", ident, errors);
    Ok(())
}
