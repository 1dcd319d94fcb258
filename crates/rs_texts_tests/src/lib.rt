//! Tests of the model of a source and of its documents. They use public items only. tests/rows has the tests that a
//! script can make.
#![tactic(auto)]

#[cfg(test)]
mod alike;
#[cfg(test)]
mod commands;
#[cfg(test)]
mod documents;
#[cfg(test)]
mod narrow;
#[cfg(test)]
mod paths;
#[cfg(test)]
mod pieces;
#[cfg(test)]
mod texts;
#[cfg(test)]
mod values;
#[cfg(test)]
mod walks;
