//! Tests of the crates at the bottom by their public calls alone: words and what is written in them, disks in memory,
//! changes that are made whole, tables of blocks, and rights. They are apart from the crates that they test, so that
//! each of these is proved once. Besides them there is no code here.
#![tactic(auto)]

#[cfg(test)]
mod change_tests;
#[cfg(test)]
mod disk_tests;
#[cfg(test)]
mod table_tests;
#[cfg(test)]
mod word_tests;
