// The written form of a message, as a definition, and how long it can be (no code). The crates writer_lines, writer_row and writer_message put it
// into a buffer.
#![tactic(auto)]
