//! Tests of the values that the crates above use: watched ends, moments, digests, runs of blocks, names, media types,
//! bases, records and changes. They test, through public items, the properties that no clause states. tests/rows tests
//! the properties that a script or a file shows.
#![tactic(auto)]

#[cfg(test)]
mod blocks;
#[cfg(test)]
mod copies;
#[cfg(test)]
mod digests;
#[cfg(test)]
mod ends;
#[cfg(test)]
mod texts;
