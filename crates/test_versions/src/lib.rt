//! Tests of what a volume does with versions of files, call after call, through its public calls alone: they are begun,
//! written, published, pinned, read, charged and dropped, on disks that serve and on disks that fail. They are apart
//! from the crate that they test so that it is proved once, and from `test_volume`, where a volume is made and opened.
//! There is no other code here.
#![tactic(auto)]

#[cfg(test)]
mod charge_tests;
#[cfg(test)]
mod disks;
#[cfg(test)]
mod pin_tests;
#[cfg(test)]
mod publish_tests;
#[cfg(test)]
mod update_tests;
