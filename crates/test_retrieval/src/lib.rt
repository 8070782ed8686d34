//! Tests of versions of files through the public calls alone: what their prime blocks and extensions say is read, built
//! and written, and their words are put and read back, on disks that serve and on disks that fail. They are apart from
//! the crate that they test so that it is proved once. There is no other code here.
#![tactic(auto)]

#[cfg(test)]
mod body_tests;
#[cfg(test)]
mod read_tests;
#[cfg(test)]
mod write_tests;
