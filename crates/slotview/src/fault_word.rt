//! Finds the word or the item at which a filing was refused.
use flow_traffic::MAX_REGULATIONS;
use fpl_items::{Effects, Item, Items};
use fpl_message::Refusal;
use fpl_text::{
    Departure, Destination, Fields, Heading, Ident, Squeezed, Text, Title, Words, begins_amendment,
    split,
};
use std::alloc::{AllocError, Global};

/// The number of fields before field 18 in a message other than FPL.
const BEFORE_18: usize = 4;

/// The word or the item of a text at which a desk of at most `max_plans` plans refused it, or the
/// limit that it would exceed. Empty if the text has neither.
pub fn word_at_fault(
    alloc: Global,
    text: &[u8],
    refusal: Refusal,
    max_plans: u32,
) -> Result<Vec<u8>, AllocError> {
    match refusal {
        Refusal::Empty => Ok(Vec::new(alloc)),
        Refusal::NoBracket => bracket_at_fault(alloc, text),
        Refusal::PlansFull => Ok(format!(in alloc; "{max_plans} plans")?.into_bytes()),
        Refusal::RegulationsFull => {
            Ok(format!(in alloc; "{MAX_REGULATIONS} regulations")?.into_bytes())
        }
        Refusal::BadByte(place) => Vec::from_slice(alloc, word_around(text, place as usize)),
        Refusal::FieldCount => field_count(alloc, text),
        Refusal::UnknownTitle => title_word(alloc, text),
        Refusal::BadOrder => order_words(alloc, text, 0, 1),
        Refusal::RegulationHeld | Refusal::NoRegulation | Refusal::TimeBack => {
            order_words(alloc, text, 1, 1)
        }
        Refusal::BadPeriod => order_words(alloc, text, 4, 2),
        Refusal::BadRate => order_words(alloc, text, 6, usize::MAX),
        _ => message_word(alloc, text, refusal),
    }
}

/// Whether a byte is a space or ends a line.
fn is_blank(byte: u8) -> bool {
    matches!(byte, b' ' | b'\r' | b'\n')
}

/// Whether a byte is outside of words: a blank, a bracket or a hyphen.
fn is_outside(byte: u8) -> bool {
    is_blank(byte) || is_bracket(byte) || byte == b'-'
}

/// The bytes around an offset, up to blanks, brackets and hyphens.
fn word_around(text: &[u8], place: usize) -> &[u8] {
    let mut start = 0usize;
    let mut end = text.len();
    for (index, byte) in text.iter().enumerate() {
        if is_outside(*byte) {
            if index < place {
                start = index.saturating_add(1);
            } else {
                end = end.min(index);
            }
        }
    }
    text.get(start..end).unwrap_or(b"")
}

/// Whether a byte is a bracket.
fn is_bracket(byte: u8) -> bool {
    matches!(byte, b'(' | b')')
}

/// The first bracket within a message, or that the last one is missing, with its offset in the
/// text.
fn bracket_at_fault(alloc: Global, text: &[u8]) -> Result<Vec<u8>, AllocError> {
    let mut opened = false;
    let mut within = None;
    let mut end = 0usize;
    for (index, byte) in text.iter().enumerate() {
        if opened && within.is_none() && is_bracket(*byte) {
            within = Some((index, *byte));
        }
        opened = opened || *byte == b'(';
        if !is_blank(*byte) {
            end = index.saturating_add(1);
        }
    }
    match within {
        Some((index, byte)) => {
            let bracket = char::from(byte);
            Ok(format!(in alloc; "{bracket} at byte {index}")?.into_bytes())
        }
        None => Ok(format!(in alloc; "no ) at byte {end}")?.into_bytes()),
    }
}

/// The number of fields of a text, as digits.
fn field_count(alloc: Global, text: &[u8]) -> Result<Vec<u8>, AllocError> {
    let mut count = 1u32;
    for byte in text {
        if *byte == b'-' {
            count = count.saturating_add(1);
        }
    }
    Ok(format!(in alloc; "{count} fields")?.into_bytes())
}

/// The bytes of a squeezed text. Empty if it can't be squeezed.
fn squeezed_of(alloc: Global, text: &[u8]) -> Result<Vec<u8>, AllocError> {
    match Squeezed::read(alloc, text) {
        Ok(squeezed) => Vec::from_slice(alloc, squeezed.as_bytes()),
        Err(_) => Ok(Vec::new(alloc)),
    }
}

/// What is before the first hyphen of a message, without the bracket.
fn title_word(alloc: Global, text: &[u8]) -> Result<Vec<u8>, AllocError> {
    let squeezed = squeezed_of(alloc, text)?;
    let bytes = squeezed.as_slice();
    let end = bytes
        .iter()
        .position(|byte| *byte == b'-' || *byte == b')')
        .unwrap_or(bytes.len());
    Vec::from_slice(alloc, bytes.get(1..end).unwrap_or(b""))
}

/// Words of an order from one on, with a space between them.
fn order_words(
    alloc: Global,
    text: &[u8],
    first: usize,
    count: usize,
) -> Result<Vec<u8>, AllocError> {
    let squeezed = squeezed_of(alloc, text)?;
    let mut joined = Vec::new(alloc);
    let mut index = 0usize;
    for word in Words::new(squeezed.as_slice()) {
        if index >= first && index - first < count {
            if !joined.is_empty() {
                joined.push(b' ')?;
            }
            joined.extend_from_slice(word)?;
        }
        index = index.saturating_add(1);
    }
    Ok(joined)
}

/// The word at which a message with the fields of its title was refused.
fn message_word(alloc: Global, text: &[u8], refusal: Refusal) -> Result<Vec<u8>, AllocError> {
    let Ok(fields) = split(alloc, text) else {
        return Ok(Vec::new(alloc));
    };
    match refusal {
        Refusal::BadField(18) | Refusal::BadDate => {
            item_at_fault(alloc, field18(&fields), refusal)
        }
        Refusal::DuplicateItem => match second_amendment(&fields) {
            Some(field) => Vec::from_slice(alloc, field),
            None => item_at_fault(alloc, field18(&fields), refusal),
        },
        Refusal::BadField(22) => Vec::from_slice(alloc, no_amendment(&fields)),
        Refusal::BadField(number) => Vec::from_slice(alloc, bad_field(&fields, number)),
        Refusal::UnsupportedAmendment(number) => {
            Vec::from_slice(alloc, amendment(&fields, number).unwrap_or(b""))
        }
        Refusal::NotLater | Refusal::DelayTooLong | Refusal::Past | Refusal::TooEarly => {
            Vec::from_slice(alloc, field13(&fields))
        }
        Refusal::KeyChange => key_item(alloc, &fields),
        _ => Vec::from_slice(alloc, field_at(&fields, 1)),
    }
}

/// What a CHG would change of a plan's key: the departure, by its amended field 13, or else the
/// day, by the DOF of its amended field 18.
fn key_item(alloc: Global, fields: &Fields<Global>) -> Result<Vec<u8>, AllocError> {
    let own = place_of(fields.title(), 13).map_or(b"".as_slice(), |place| field_at(fields, place));
    if let Some(field) = amendment(fields, 13) {
        if departure_in(field) != departure_in(own) {
            return Vec::from_slice(alloc, field);
        }
    }
    for item in Items::new(amended_field18(fields)) {
        if item.name() == b"DOF".as_slice() {
            return item_text(alloc, &item);
        }
    }
    Ok(Vec::new(alloc))
}

/// The departure that a field 13 names, which may be an amended one.
fn departure_in(field: &[u8]) -> Option<Text<4>> {
    let text = match amended_of(field) {
        Some((_, text)) => text,
        None => field,
    };
    Departure::read(text).ok().map(|departure| departure.place)
}

/// The text of the amended field 18. Empty without one.
fn amended_field18(fields: &Fields<Global>) -> &[u8] {
    match amendment(fields, 18).and_then(amended_of) {
        Some((_, text)) => text,
        None => b"",
    }
}

/// The field at an index, from 0. Empty if there is none.
fn field_at(fields: &Fields<Global>, place: usize) -> &[u8] {
    if place < fields.count() {
        fields.field(place)
    } else {
        b""
    }
}

/// The index of a field by its type number in a message of this title, amended fields excepted.
fn place_of(title: Title, number: u8) -> Option<usize> {
    let numbers: &[u8] = match title {
        Title::Fpl => &[3, 7, 8, 9, 10, 13, 15, 16, 18],
        _ => &[3, 7, 13, 16, 18],
    };
    numbers.iter().position(|other| *other == number)
}

/// The type number and the text of an amended field.
fn amended_of(field: &[u8]) -> Option<(u8, &[u8])> {
    if !begins_amendment(field) {
        return None;
    }
    let stroke = field.iter().position(|byte| *byte == b'/')?;
    let digits = str::from_utf8(field.get(..stroke)?).ok()?;
    let number = digits.parse::<u8>().ok()?;
    let after = stroke.saturating_add(1);
    Some((number, field.get(after..)?))
}

/// The amended field of this type number, whole.
fn amendment(fields: &Fields<Global>, number: u8) -> Option<&[u8]> {
    for place in BEFORE_18..fields.count() {
        let field = field_at(fields, place);
        match amended_of(field) {
            Some((other, _)) if other == number => return Some(field),
            _ => {}
        }
    }
    None
}

/// The first amended field whose type number an earlier one has.
fn second_amendment(fields: &Fields<Global>) -> Option<&[u8]> {
    let mut seen = [false; 256];
    for place in BEFORE_18..fields.count() {
        let field = field_at(fields, place);
        if let Some((number, _)) = amended_of(field) {
            let index = number as usize;
            if seen[index] {
                return Some(field);
            }
            seen[index] = true;
        }
    }
    None
}

/// The first field after field 18 that is no amended field.
fn no_amendment(fields: &Fields<Global>) -> &[u8] {
    for place in BEFORE_18 + 1..fields.count() {
        let field = field_at(fields, place);
        if !begins_amendment(field) {
            return field;
        }
    }
    b""
}

/// Whether a field that each message has doesn't have its form.
fn is_bad(number: u8, field: &[u8]) -> bool {
    match number {
        3 => Heading::read(field).is_err(),
        7 => Ident::read(field).is_err(),
        13 => Departure::read(field).is_err(),
        16 => Destination::read(field).is_err(),
        _ => true,
    }
}

/// The field of this type number that doesn't have its form: the message's own, or an amended one.
/// An FPL has no amended fields, so the fault is in its own. `is_bad` can't tell it of field 16:
/// an elapsed time may be missing there in other messages, but not in an FPL.
fn bad_field(fields: &Fields<Global>, number: u8) -> &[u8] {
    if let Some(place) = place_of(fields.title(), number) {
        let field = field_at(fields, place);
        if matches!(fields.title(), Title::Fpl) {
            return field;
        }
        if is_bad(number, field) {
            return field;
        }
    }
    amendment(fields, number).unwrap_or(b"")
}

/// The field 13 that gives an off-block time: the amended one, if there is one.
fn field13(fields: &Fields<Global>) -> &[u8] {
    if let Some(field) = amendment(fields, 13) {
        return field;
    }
    match place_of(fields.title(), 13) {
        Some(place) => field_at(fields, place),
        None => b"",
    }
}

/// Field 18: that of the message if it is at fault, or an amended one.
fn field18(fields: &Fields<Global>) -> &[u8] {
    let own = match place_of(fields.title(), 18) {
        Some(place) => field_at(fields, place),
        None => b"",
    };
    let is_chg = matches!(fields.title(), Title::Chg);
    if !is_chg {
        return own;
    }
    if !own.is_empty() && !begins_amendment(own) && is_bad_item(own) {
        return own;
    }
    if amendment(fields, 18).is_some() {
        amended_field18(fields)
    } else {
        own
    }
}

/// An item as it is written in its field.
fn item_text(alloc: Global, item: &Item<'_>) -> Result<Vec<u8>, AllocError> {
    let mut text = Vec::from_slice(alloc, item.name())?;
    text.push(b'/')?;
    let mut is_first = true;
    for word in item.words() {
        if !is_first {
            text.push(b' ')?;
        }
        text.extend_from_slice(word)?;
        is_first = false;
    }
    Ok(text)
}

/// Whether an item by itself is refused.
fn is_bad_item(text: &[u8]) -> bool {
    Effects::read(text).is_err()
}

/// The item of field 18 that is refused, or the word that begins none.
fn item_at_fault(alloc: Global, field: &[u8], refusal: Refusal) -> Result<Vec<u8>, AllocError> {
    let first = Words::new(field).next().unwrap_or(b"");
    if Items::new(first).next().is_none() {
        return Vec::from_slice(alloc, first);
    }
    let mut dated = false;
    for item in Items::new(field) {
        let text = item_text(alloc, &item)?;
        let is_day = item.name() == b"DOF".as_slice();
        let is_it = match refusal {
            Refusal::DuplicateItem => is_day && dated,
            _ => is_bad_item(text.as_slice()),
        };
        if is_it {
            return Ok(text);
        }
        dated = dated || is_day;
    }
    Ok(Vec::new(alloc))
}
