//! Tests of a job's core by its public calls alone: its words, its rings of buffers where they lie over other words,
//! and each of their steps and of those of a command list as the file machine takes it. They are apart from the crate
//! that they test, so that it is proved once. Besides them there is no code here.
#![tactic(auto)]

#[cfg(test)]
mod ring_tests;
#[cfg(test)]
mod step_tests;
#[cfg(test)]
mod word_tests;
