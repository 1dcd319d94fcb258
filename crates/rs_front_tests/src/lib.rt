//! Tests of rs_script and rs_http: scripts and requests over readers and writers that fail, wait or give one byte at a
//! time. The worked rows of tests/rows show the rest.
#![tactic(auto)]

#[cfg(test)]
mod ends;
#[cfg(test)]
mod requests;
#[cfg(test)]
mod scripts;
#[cfg(test)]
mod sources;
