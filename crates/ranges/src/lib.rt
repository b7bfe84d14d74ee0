// List text without code: what a text must be to be taken, which nodes it names, and the text of a fault table. The crates list_reader and list_writer have
// the code that reads and writes it.
#![tactic(auto)]
