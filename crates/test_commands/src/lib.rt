//! Tests of sessions, call scripts and exchanges over a monitor and a disk in memory that no text of lines can play:
//! readers and writers that fail or work in small pieces, refused allocations, long lines, what is counted, and bytes
//! that come and go; and of the first second of the calendar of `collection`. The program `scenarios` plays what lines
//! and events come to. There is no code here besides the tests.
#![tactic(auto)]

#[cfg(test)]
mod date_tests;
#[cfg(test)]
mod line_tests;
#[cfg(test)]
mod memory_tests;
#[cfg(test)]
mod put_tests;
#[cfg(test)]
mod service;
#[cfg(test)]
mod stream_tests;
#[cfg(test)]
mod transfer_tests;
#[cfg(test)]
mod wire_tests;
