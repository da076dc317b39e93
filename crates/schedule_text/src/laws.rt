//! What holds of all lines and words: each law is the contract of a function with nothing to do.

ghost use Rattle.std.specs.Prelude.{◌≡◌, ◌<◌, ◌≤◌, ◌==◌, ◌∷◌, [], ◌++◌, ℕ, List, All, Some, length};
ghost use Rattle.std.specs.List.{slice_split};
ghost use Rattle.schedule_text.specs.declared.event.Event.{Event};
ghost use Rattle.schedule_text.specs.Cuts.{Lacks};
ghost use Rattle.schedule_text.specs.Events.{event_of};
ghost use Rattle.schedule_text.specs.Schedules.{found_on};
ghost use Rattle.schedule_text.specs.Lines.{lines_of, ended};
ghost use Rattle.schedule_text.specs.Words.{word_of, escaped};

/// A word that is printed with its escapes is read again.
pub fn a_printed_word_is_read_again()
    ensures { (word : List ℕ) → 0 < length word → word_of (escaped word) ≡ Some word }
{}

/// Lines without LF that are written one after another, each ended by LF, are read again; so are those whose last,
/// which isn't empty, lacks its LF. Each text is written so.
pub fn written_lines_are_read_again()
    ensures ended { (lines : List (List ℕ)) → All (Lacks 10) lines → lines_of (ended lines) ≡ lines }
    ensures unended { (lines : List (List ℕ)) (last : List ℕ) → All (Lacks 10) lines → Lacks 10 last → 0 < length last
        → lines_of (ended lines ++ last) ≡ lines ++ last ∷ [] }
    ensures each { (text : List ℕ) → (lines : List (List ℕ)) × (last : List ℕ) × All (Lacks 10) lines × Lacks 10 last
        × (text ≡ ended lines ++ last) }
{}

/// The line of an event has at most 3,074 octets and 37 words.
pub fn an_event_has_few_words()
    ensures { (line : List ℕ) (event : Event) → found_on event_of line ≡ Some (Some event)
        → (length line ≤ 3074) × (length (slice_split (λ o. o == 32) line) ≤ 37) }
{}
