//! Tests of how a volume comes to be, through its public calls alone: it is made, opened and copied, also without
//! memory; and a quota and a migration are stopped at each call of the disk, and so are the recoveries from them. They
//! are apart from the crate that they test so that it is proved once, and from `test_versions`, where versions are
//! written and read. What a start refuses is played by rows of `scenarios`. There is no other code here.
#![tactic(auto)]

#[cfg(test)]
mod disks;
#[cfg(test)]
mod start_tests;
#[cfg(test)]
mod stop_tests;
