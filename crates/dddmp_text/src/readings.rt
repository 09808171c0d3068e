//! Each text has one reading, and what is written for a dump is read as that dump.

ghost use Rattle.dddmp_text.specs.Readings.{DumpOrFault, EachHasOne, IsReadAgain, OneDump, OneFault};

/// Each text, of any length, is that of one dump or has one fault, and not both.
pub fn texts_have_one_reading()
    ensures each_has_one { EachHasOne }
    ensures one_dump { OneDump }
    ensures one_fault { OneFault }
    ensures dump_or_fault { DumpOrFault }
{}

/// The text that is written for a dump of at most `MOST_VARIABLES` variables, with fewer than 2^31 - 1 node lines, fewer than 2^31 roots and
/// positions below 2^31, is that dump's, and so has no fault.
pub fn written_texts_are_read_again()
    ensures { IsReadAgain }
{}
