//! Worked examples: what the crates below answer to inputs whose answers are known from outside, a module a subject.
#![tactic(auto)]

#[cfg(test)]
mod command_lines;
#[cfg(test)]
mod lock;
#[cfg(test)]
mod outside;
mod reporting_book;
#[cfg(test)]
mod sockets;
#[cfg(test)]
mod system_files;
#[cfg(test)]
mod web_sockets;
