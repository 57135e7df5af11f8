//! Tests of the archive: requests and replies, files, HTTP messages, sessions, and the check.
#![tactic(auto)]

#[cfg(test)]
mod archive_file_tests;
#[cfg(test)]
mod check_tests;
#[cfg(test)]
mod deposit_tests;
#[cfg(test)]
mod loopback;
#[cfg(test)]
mod messages;
#[cfg(test)]
mod pages;
#[cfg(test)]
mod requests;
#[cfg(test)]
mod sessions;
#[cfg(test)]
mod stops;
