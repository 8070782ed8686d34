//! Tests of a list of events, of a start after a crash, of the areas that calls change, and of words that are put and
//! shown at once, through the calls of a monitor. The program `scenarios` plays what single calls do, on a device that
//! fails too. There is no code here besides them.
#![tactic(auto)]

#[cfg(test)]
mod changed_tests;
#[cfg(test)]
mod event_tests;
#[cfg(test)]
mod service;
#[cfg(test)]
mod word_tests;
