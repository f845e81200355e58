//! What is proved of every text that is read as a scan. Each body is empty: the clauses are the theorem.

ghost use Rattle.scan_lang.specs.Laws.{ShortIsAtEnd, OthersAreInside, OthersStay, CompleteStays, EntriesStay};

/// A scan is refused as `Short` at the end of the text, and nowhere else.
pub fn short_is_at_end()
    ensures { ShortIsAtEnd }
{}

/// Every other refusal is at a byte of the text, and stays whatever follows the text.
pub fn others_stay()
    ensures inside { OthersAreInside }
    ensures stays { OthersStay }
{}

/// Nothing after the record `end` changes a scan.
pub fn complete_stays()
    ensures { CompleteStays }
{}

/// The entries of a text are the first ones of every longer text.
pub fn entries_stay()
    ensures { EntriesStay }
{}
