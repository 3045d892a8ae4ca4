// The card file, both ways: what the writer `card_file` (specs/Writer.antt) writes is opened and read as the card, and
// what is opened is what the writer writes of the card that was read. Each promise is the contract of a function without
// code: it takes nothing, does nothing and ensures the promise, so a promise whose proof is gone, or that a changed
// definition makes false, fails this crate.
#![tactic(auto)]

ghost use Rattle.cardfile.specs.Laws.{CaseIsRead, FileOpens, FileReturns, OpenedReturns};

// Document 01's case, written as a card file by the document's words, is read as the three lines that the document
// prints for it.
pub fn case_is_read()
    ensures { CaseIsRead }
{}

// The card file of every card that has room in 16,384 bytes, with a side of at most 64, is opened, with the card's
// settings and with its sections where they were written.
pub fn written_opens()
    ensures { FileOpens }
{}

// What is read from that file is the card: each palette number, reference, position, coordinate and colour is the one
// that was written. So the file's text is that of the card. It is a file as `opened_returns_bytes` asks for: the mask's
// upper five bits are 0 and each NaN is 7FC00000.
pub fn written_returns_values()
    ensures { FileReturns }
{}

// What is read from any file of bytes that is opened is a card that has room in a file, and its file has the same text.
// It is the same file, byte for byte, where that one has no bits which reading passes over: where the mask's upper five
// bits are 0 and each NaN is 7FC00000.
pub fn opened_returns_bytes()
    ensures { OpenedReturns }
{}
