// The notice of a fault table as a list of bytes, without code: that it reads back as the table, and that no other bytes do. The crate writer has the code
// that writes it.
#![tactic(auto)]
