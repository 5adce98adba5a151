//! Laws of the definitions. Each function has no body: its contract is the law.
ghost use Rattle.pure_record_print.specs.Laws.{OneRecordOfText, OneText, ReadsBack};

/// A text is that of one record.
pub fn one_record_of_text()
    ensures { OneRecordOfText }
{}

/// What is printed of a record that some text spells spells this record.
pub fn reads_back()
    ensures { ReadsBack }
{}

/// Records that some texts spell and that print alike are one.
pub fn one_text()
    ensures { OneText }
{}
