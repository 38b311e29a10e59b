//! Laws over the definitions that the contracts cite.

ghost use Rattle.std.specs.Prelude.{◌≡◌, ◌⊎◌, ℕ, List, [], Ok, true, codes, take, drop};
ghost use Rattle.fpl_text.specs.Words.{words_of};
ghost use Rattle.fpl_items.specs.ItemLaws.{BeginWithItem, SpellItems};
ghost use Rattle.fpl_items.specs.Items.{ItemView, items_of, items_or_fault};
ghost use Rattle.fpl_items.specs.Routes.{RouteView, path_or_fault};
ghost use Rattle.fpl_items.specs.RouteLaws.{AreElements, AreInOrder, IsSpeedThenLevel};
ghost use Rattle.fpl_items.specs.Speeds.{is_speed_and_level, speed_len};

/// The elements of a route are the words after its first one, in order, each with its offsets in
/// the field and the first kind that fits.
pub fn elements_are_words()
    ensures words { (field : List ℕ) (path : RouteView) → path_or_fault field ≡ Ok path
        → AreElements field (drop 1 (words_of field)) path.elements }
    ensures order { (field : List ℕ) (path : RouteView) → path_or_fault field ≡ Ok path
        → AreInOrder 0 path.elements }
{}

/// The items of field 18 make up its words: each is spelled by the word that begins it, with a
/// stroke after its name, and by the words up to the next one. No other list of items is spelled by
/// these words. A field that is 0 has none.
pub fn items_are_words()
    ensures found { (words : List (List ℕ)) → BeginWithItem words
        → SpellItems (items_of words) words }
    ensures only { (items : List ItemView) (words : List (List ℕ)) → SpellItems items words
        → items_of words ≡ items }
    ensures field { (field : List ℕ) (items : List ItemView) → items_or_fault field ≡ Ok items
        → ((field ≡ codes "0") × (items ≡ [])) ⊎ SpellItems items (words_of field) }
{}

/// The first word of field 15 is cut in just one way: it is a speed and a level joined if and only
/// if it has a speed followed by a level, and no other speed and level make up the same word.
pub fn speed_and_level_have_one_cut()
    ensures found { (word : List ℕ) → is_speed_and_level word ≡ true
        → IsSpeedThenLevel word (take (speed_len word) word) (drop (speed_len word) word) }
    ensures only { (word speed level : List ℕ) → IsSpeedThenLevel word speed level
        → (is_speed_and_level word ≡ true) × (speed ≡ take (speed_len word) word)
        × (level ≡ drop (speed_len word) word) }
{}
