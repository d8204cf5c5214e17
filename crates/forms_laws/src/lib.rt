//! The laws of the forms, each as what a function ensures: all bytes and all values are meant, not those of a call.
#![tactic(auto)]

ghost use Rattle.forms_laws.specs.Laws.{Numbers, ReadsBack, OneSpelling, FirstFault};

/// Numbers are read back as they are written, and are spelled in one way. In particular 127 is written 7f and 128 is written
/// 80 01, and 80 00 is refused at its second byte.
pub fn numbers_stand()
    ensures { Numbers }
{}

/// Each record and each message is read back with the values that were written, and its parts where they were written.
pub fn reads_back_stands()
    ensures { ReadsBack }
{}

/// What is read has the sizes of its form, and no other bytes read as the same record or the same message.
pub fn one_spelling_stands()
    ensures { OneSpelling }
{}

/// A fault names the first byte with which nothing valid begins.
pub fn first_fault_stands()
    ensures { FirstFault }
{}
