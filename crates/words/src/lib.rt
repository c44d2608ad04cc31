// Words and bytes: numbers in them, words copied, text appended.
#![tactic(auto)]

pub mod numbers; // Numbers in little-endian bytes, a u64 in two words, and an area
pub mod copying; // Words copied into a slice, one put in among others, and words as a list
pub mod append; // Bytes put one after the other into a buffer of fixed room, and numbers as text
pub mod word_list; // At most 64 words in a value that is copied
