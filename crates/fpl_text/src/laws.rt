//! Laws over the definitions that the contracts cite.

ghost use Rattle.std.specs.Prelude.{◌≡◌, ◌<◌, ◌≤◌, ◌/◌, ◌%◌, ◌++◌, ◌↔◌, ℕ};
ghost use Rattle.std.specs.Prelude.{true, false, List, [], ◌∷◌, length, Some};
ghost use Rattle.std.specs.List.{list_all};
ghost use Rattle.fpl_text.specs.Bytes.{is_blank};
ghost use Rattle.fpl_text.specs.Squeezing.{squeezed};
ghost use Rattle.fpl_text.specs.SqueezingLaws.{unblanked, is_inner, IsSqueezed, KeepsPair};
ghost use Rattle.fpl_text.specs.Fields.{is_bracketed, fields_of};
ghost use Rattle.fpl_text.specs.Craft.{craft_of};
ghost use Rattle.fpl_text.specs.FieldLaws.{AreFields};
ghost use Rattle.fpl_text.specs.FieldParts.{IsCraft, IsHeading, IsIdent, IsMessageNumber};
ghost use Rattle.fpl_text.specs.Headings.{heading_of, is_number};
ghost use Rattle.fpl_text.specs.Places.{ident_of};
ghost use Rattle.fpl_text.specs.declared.craft.Craft.{Craft};
ghost use Rattle.fpl_text.specs.declared.heading.Heading.{Heading};
ghost use Rattle.fpl_text.specs.declared.ident.Ident.{Ident};
ghost use Rattle.fpl_text.specs.Moments.{IsYymmdd, moment_of, day_digits, hhmm_of};
ghost use Rattle.fpl_text.specs.declared.minute.TheConstants.{GREATEST_MINUTE, YEAR_2000};
ghost use Rattle.fpl_text.specs.declared.minute.TheConstants.{YEAR_2099};
ghost use Rattle.fpl_text.specs.declared.part.TheConstants.{MOST_PARTS};
ghost use Rattle.fpl_text.specs.declared.time.TheConstants.{ELAPSED_LIMIT};

/// The fields of a text are the one list of texts whose join by hyphens is between its brackets.
pub fn one_list_of_fields()
    ensures found { (text : List ℕ) → is_bracketed text ≡ true → AreFields text (fields_of text) }
    ensures only { (text : List ℕ) (fields : List (List ℕ)) → AreFields text fields
        → (is_bracketed text ≡ true) × (fields_of text ≡ fields) }
{}

/// A time has one text of six digits for its day.
pub fn one_day_text()
    ensures { (minute : ℕ) (a b : List ℕ) → IsYymmdd minute a → IsYymmdd minute b → a ≡ b }
{}

/// The ten digits that are written for a time of the years 2000 to 2098 are read as that time.
pub fn moment_reads_back()
    ensures { (minute : ℕ) → YEAR_2000 ≤ minute → minute < YEAR_2099
        → moment_of (day_digits (minute / 1440) ++ hhmm_of (minute % 1440)) ≡ Some minute }
{}

/// Squeezing keeps all bytes but blanks, in their order. Blanks between two bytes of words become
/// one space, and two adjacent bytes stay adjacent.
pub fn squeezing_keeps_the_words()
    ensures bytes { (text : List ℕ) → unblanked (squeezed text) ≡ unblanked text }
    ensures apart { (front gap rest : List ℕ) (x y : ℕ) → list_all is_blank gap ≡ true
        → 0 < length gap
        → is_inner x ≡ true → is_inner y ≡ true
        → KeepsPair (squeezed (front ++ (x ∷ (gap ++ (y ∷ rest))))) front rest (32 ∷ []) x y }
    ensures joined { (front rest : List ℕ) (x y : ℕ) → is_blank x ≡ false → is_blank y ≡ false
        → KeepsPair (squeezed (front ++ (x ∷ (y ∷ rest)))) front rest [] x y }
{}

/// A squeezed text has no blanks but single spaces, and none at its ends or beside a hyphen or a
/// bracket. Squeezing leaves just these texts unchanged, so squeezing twice is squeezing once.
pub fn squeezing_ends()
    ensures squeezed { (text : List ℕ) → IsSqueezed (squeezed text) }
    ensures stays { (text : List ℕ) → IsSqueezed text ↔ (squeezed text ≡ text) }
    ensures again { (text : List ℕ) → squeezed (squeezed text) ≡ squeezed text }
{}

/// Field 3, and a message number in it, are exactly their parts one after the other: the parts
/// joined are the field, and a text made of such parts is read as them.
pub fn headings_are_their_parts()
    ensures field { (text : List ℕ) (heading : Heading)
        → (heading_of text ≡ Some heading) ↔ IsHeading text heading }
    ensures number { (text : List ℕ) → (is_number text ≡ true) ↔ IsMessageNumber text }
{}

/// So is field 7: a name, then optionally a transponder code.
pub fn idents_are_their_parts()
    ensures { (text : List ℕ) (ident : Ident) → (ident_of text ≡ Some ident) ↔ IsIdent text ident }
{}

/// And field 9: optionally a number, then a type, a stroke and a wake turbulence category.
pub fn crafts_are_their_parts()
    ensures { (text : List ℕ) (craft : Craft) → (craft_of text ≡ Some craft) ↔ IsCraft text craft }
{}

/// The limits of times and sub-periods, which other clauses and definitions cite by name.
pub fn limits_are()
    ensures greatest { GREATEST_MINUTE ≡ 100000000 }
    ensures first { YEAR_2000 ≡ 15778080 }
    ensures end { YEAR_2099 ≡ 67848480 }
    ensures elapsed { ELAPSED_LIMIT ≡ 6000 }
    ensures parts { MOST_PARTS ≡ 7 }
{}
