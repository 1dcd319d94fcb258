//! Tests of the behaviour that the contracts of a source on a disk leave open: devices that stop or fail at any call,
//! readers of bodies that fail or end early, the answers of a closed source, and calls that take memory and succeed.
//! Commands and disks that can be seen from outside are rows of `tests/rows`.
#![tactic(auto)]

#[cfg(test)]
mod asking;
#[cfg(test)]
mod closing;
#[cfg(test)]
mod copying;
#[cfg(test)]
mod failing;
#[cfg(test)]
mod filling;
#[cfg(test)]
mod many;
#[cfg(test)]
mod paging;
#[cfg(test)]
mod reading;
#[cfg(test)]
mod receiving;
#[cfg(test)]
mod retaining;
#[cfg(test)]
mod showing;
#[cfg(test)]
mod stopping;
#[cfg(test)]
mod streaming;
