// What a valid record is (specs/Valid.antt; no code): the definition that the reader's accepted records, the writer and the book share.
#![tactic(auto)]
