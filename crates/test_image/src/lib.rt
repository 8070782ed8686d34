//! Tests of a disk over a file, by its public calls alone: an image in memory and in a file of the host, what is read
//! back from a real file, a real file next to one in memory, call by call, and the calls of a system that do less
//! than requested, or fail. They are apart from the crate that they test so that it is proved once. There is no other
//! code here.
#![tactic(auto)]

#[cfg(test)]
mod buffer_tests;
#[cfg(test)]
mod call_tests;
#[cfg(test)]
mod host_tests;
#[cfg(test)]
mod image_tests;
