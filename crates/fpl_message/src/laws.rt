//! Laws of readings.
ghost use Rattle.std.specs.Prelude.{◌≡◌, true, false, List, ℕ, IsSome};
ghost use Rattle.fpl_text.specs.Fields.{begins_amendment};
ghost use Rattle.fpl_message.specs.AmendmentLaws.{IsAmendment};
ghost use Rattle.fpl_message.specs.Modifications.{amended_number, amended_text};
ghost use Rattle.fpl_message.specs.declared.edition.Edition.{Edition};
ghost use Rattle.fpl_message.specs.declared.filing.TheConstants.{MAX_BYTES};
ghost use Rattle.fpl_message.specs.Reads.{reading_of, is_open, msg, heading_of_bytes};
ghost use Rattle.fpl_message.specs.Filings.{FilingView};
ghost use Rattle.fpl_message.specs.Messages.{Message};

/// The two editions differ in OPEN alone: any other filing reads the same by both.
pub fn editions_differ_in_open()
    ensures { (bytes : List ℕ) → is_open bytes ≡ false
        → reading_of (record { edition = Edition.First; bytes = bytes })
        ≡ reading_of (record { edition = Edition.Second; bytes = bytes }) }
{}

/// Field 22 is exactly its parts one after the other: the one or two digits of a number, a stroke,
/// and the amended text. So these parts, joined again, are the field, and a text that they make is
/// read as them.
pub fn amendments_are_their_parts()
    ensures found { (field : List ℕ) → begins_amendment field ≡ true
        → IsAmendment field (amended_number field) (amended_text field) }
    ensures only { (field text : List ℕ) (number : ℕ) → IsAmendment field number text
        → (begins_amendment field ≡ true) × (amended_number field ≡ number)
        × (amended_text field ≡ text) }
{}

/// The limit of a filing, which other clauses and definitions cite by its name.
pub fn limits_are()
    ensures bytes { MAX_BYTES ≡ 2000 }
{}

/// Each message has a field 3, which `Filing::heading` reads.
pub fn messages_have_headings()
    ensures { (filing : FilingView) (m : Message) → reading_of filing ≡ msg m
        → IsSome (heading_of_bytes filing.bytes) }
{}
