//! Names, media types, bases, decimal numbers, records of resources, changes, and their formats on the disk. [`fields`]
//! reads the fields of every format of the disk.
#![tactic(auto)]

mod base;
mod borrowed;
mod bytes;
mod change;
mod change_format;
mod decimal;
mod duplicate;
mod facts;
mod fault;
pub mod fields;
mod laws;
mod limits;
mod media_type;
mod name;
mod record;
mod record_format;

pub use base::Base;
pub use change::{Change, What};
pub use change_format::{change_size, read_change, write_change};
pub use decimal::{count_digits, number};
pub use duplicate::{Duplicate, duplicate_all};
pub use facts::Facts;
pub use fault::ValueFault;
pub use laws::{formats_stand_alone, grammars_are_the_standards, lawful_values_are_clean};
pub use limits::{LONGEST_BODY, MOST_ITEMS};
pub use media_type::MediaType;
pub use name::Name;
pub use record::Record;
pub use record_format::{read_record, record_size, write_record};
