//! Tests of directories through their public calls alone: entries and their words, chains that are read from disks that
//! serve and disks that fail, and what each edit puts. They are apart from the crate that they test so that it is
//! proved once. There is no other code here.
#![tactic(auto)]

#[cfg(test)]
mod edit_tests;
#[cfg(test)]
mod load_tests;
