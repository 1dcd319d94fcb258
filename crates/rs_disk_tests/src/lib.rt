//! Tests of disks in memory and on files, of root slots and of bodies, through their public items. The tests in
//! tests/rows show the effects of commands on a file of them.
#![tactic(auto)]

#[cfg(test)]
mod bodies;
#[cfg(test)]
mod ends;
#[cfg(test)]
mod faults;
#[cfg(test)]
mod files;
#[cfg(test)]
mod images;
#[cfg(test)]
mod laws;
#[cfg(test)]
mod memory;
#[cfg(test)]
mod slots;
