//! Tests of salvage through its public calls alone: a disk is copied with the pending puts of its log, and what is
//! whole on it is found and read, if blocks are damaged, if the device fails, and if memory is refused. They are apart
//! from the crate that they test so that it is proved once. There is no other code here.
#![tactic(auto)]

#[cfg(test)]
mod survey_tests;
