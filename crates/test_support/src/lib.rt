//! What several crates of tests have in common: a disk in memory that fails on purpose and counts its calls, the
//! volume V1 that was written out by hand, and blocks and names that are made of numbers. There is no test here, and
//! the crate stands on words and disks alone, so that the lowest crates of tests can use it. What stops a test at a
//! wrong answer is in the crates of tests themselves, since no library may end the process.
#![tactic(auto)]

mod failing;
mod image;
mod words;

pub use failing::{Answer, FailingDisk, PICKS};
pub use image::{
    DIRECTORY, HOME, MASTER, OPEN, PRIME, SIZE, TABLE, TEXT, home_of, master_of, v1, v2,
};
pub use words::{BAR, FOO, beginning, filled, foo, owner, word};
