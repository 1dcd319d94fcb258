//! Laws of the served documents. The functions have no effect: their contracts are the laws.
//!
//! A *reading* parses a text by a grammar of its own, which does not use the definition of the written texts. The laws
//! say that every text reads as exactly its document, that the lists together give all that the source holds, and that
//! a part once served stays as it was.

pub mod answered;
pub mod destination;
pub mod reading;
pub mod served;
