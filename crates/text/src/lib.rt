// Parts of byte slices: comparing, cutting, trimming, digits, and putting bytes into a lent buffer.
// Every reader and writer stands on these; the laws of the byte lists that they cite are in proofs/.
#![tactic(auto)]

pub mod digits;
pub mod put;
pub mod scan;
pub mod words;
