//! Laws about the definitions that contracts cite.

ghost use Rattle.std.specs.Prelude.{◌≡◌, ◌≤◌, ◌↔◌, ◌+◌, ◌++◌, ℕ, List, []};
ghost use Rattle.std.specs.Prelude.{◌∷◌, Option, None, Some, length, take};
ghost use Rattle.std.specs.List.{concat, filter};
ghost use Rattle.flow_input.specs.Frames.{Cut, ended_frames, first_cut, frames, is_not_blank};
ghost use Rattle.flow_input.specs.InTurn.{AnswerInTurn, filings_of};
ghost use Rattle.flow_input.specs.declared.input.TheConstants.{MAX_INPUT};
ghost use Rattle.fpl_message.specs.Filings.{FilingView};

/// The frames of an input have all its bytes except blanks, each once and in their order.
pub fn no_byte_is_lost()
    ensures { (bytes : List ℕ) → filter is_not_blank (concat (frames bytes))
        ≡ filter is_not_blank bytes }
{}

/// The frames that have ended in some bytes are the first frames of the input, however it
/// continues, and all frames of those bytes except, perhaps, the last.
pub fn ended_frames_stay()
    ensures first { (bytes more : List ℕ)
        → take (length (ended_frames bytes)) (frames (bytes ++ more)) ≡ ended_frames bytes }
    ensures all { (bytes : List ℕ) → length (frames bytes) ≤ length (ended_frames bytes) + 1 }
{}

/// The frames of an input are its first one and those of the bytes after it. So calls that take one
/// frame after the other return the frames of the whole input: those returned so far and those
/// still to come.
pub fn frames_come_in_turn()
    ensures first { (bytes : List ℕ) (c : Cut) → first_cut bytes ≡ Some c
        → frames bytes ≡ c.frame ∷ frames c.rest }
    ensures none { (bytes : List ℕ) → (first_cut bytes ≡ None) ↔ (frames bytes ≡ []) }
    ensures so_far { (filings : List (Option FilingView)) (input left : List ℕ)
        → AnswerInTurn filings input left
        → filings_of input ≡ filings ++ filings_of left }
    ensures whole { (filings : List (Option FilingView)) (input left : List ℕ)
        → AnswerInTurn filings input left
        → first_cut left ≡ None → filings_of input ≡ filings }
{}

/// The limit of an input, in bytes.
pub fn limits_are()
    ensures { MAX_INPUT ≡ 4_000_000_000 }
{}
