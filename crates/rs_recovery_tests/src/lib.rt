//! Tests of runs of commands, of their stops, and of recovery.
#![tactic(auto)]

#[cfg(test)]
mod asking;
#[cfg(test)]
mod examples;
#[cfg(test)]
mod files;
#[cfg(test)]
mod stopping;
