ghost use Rattle.std.specs.Prelude.{◌≡◌, ℕ, List};
ghost use Rattle.xom_base.specs.declared.entry.Entry.{Entry};
ghost use Rattle.journal_text.specs.JournalTexts.{journal_text};
ghost use Rattle.journal_text.specs.Readings.{IsJournal};
ghost use Rattle.journal_round_trip.specs.KeepsRules.{KeepsJournalRules};

/// A law and no code: the text that is printed of entries is a journal of these entries, so a reader gives
/// them back, each the same in every field and in their order. It speaks of entries that keep the rules
/// of the text.
pub fn what_is_printed_is_read_again()
    ensures { (entries : List Entry) → KeepsJournalRules entries → IsJournal (journal_text entries) entries }
{}

/// A law and no code: the entries of a journal's text keep the rules, whoever wrote the text. So the
/// rules ask for no more than a reader does, and where entries break one, no text is a journal of them.
pub fn what_is_read_keeps_the_rules()
    ensures { (text : List ℕ) (entries : List Entry) → IsJournal text entries → KeepsJournalRules entries }
{}

/// A law and no code: a text is the journal of one list of entries at most. So journals that keep the
/// rules and are printed alike are the same.
pub fn a_text_is_one_journal()
    ensures { (text : List ℕ) (a b : List Entry) → IsJournal text a → IsJournal text b → a ≡ b }
{}
