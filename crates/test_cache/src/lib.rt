//! Tests of disks that fail on purpose and of cached blocks, by their public calls alone. They are apart from the
//! crates that they test so that each of these is proved once. There is no other code here.
#![tactic(auto)]

#[cfg(test)]
mod asking;
#[cfg(test)]
mod cache_tests;
#[cfg(test)]
mod fuse_tests;
