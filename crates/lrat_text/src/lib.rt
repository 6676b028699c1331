//! The text of certificates: read line by line, and written.
//!
//! A certificate has a list of lines of a refutation, in LRAT, for each of several obligations in their order, each
//! list behind a line with the obligation's name. What a line spells is stated by writing: a line reads as
//! something where it is what is written of that, byte for byte, and so nothing has two spellings. The reader
//! takes no line for good: that is the checker's affair. Obligations are names here.
#![tactic(auto)]

mod cert;
mod cut;
mod items;
mod laws;
mod number;
mod numbers;
mod reader;
mod text;
mod writer;

pub use cert::{CertError, CertStep};
pub use laws::{again, one_reading, read_back, read_whole};
pub use reader::CertReader;
pub use writer::write_cert;
