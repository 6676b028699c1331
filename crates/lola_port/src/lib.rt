//! The outside of the workbench: where files are read and written, where printed text goes, and what
//! answers on a bus.
//!
//! Everything above reaches the outside through three traits, `Store`, `Sink` and `Device`. Its one
//! idea is that an object of the outside has meanings: a store has its list of files and its counts
//! of failed reads and writes by name, a sink has its bytes and its count of faults, and a device is
//! a list of numbers. A clause says what each call answers and what becomes of these meanings, so a
//! proof above speaks of files and printed text, and a fault is believed only where a count rose.
//!
//! `MemStore` and `MemSink` are in memory and tell all of their content; they fail where they are
//! told to, so that tests meet every fault. `RealStore` and `RealSink` stand over the files and the
//! output of the system and tell no content: that a disk or a terminal holds what was written is
//! trusted. Nothing here knows of designs, tables or certificates, and no device is made here.
#![tactic(auto)]

// the traits
mod device;
mod sink;
mod store;

// in memory, and over the system
mod mem_sink;
mod mem_store;
mod real_sink;
mod real_store;

// what the stores share
mod faults;
mod file_list;

pub use device::{Device, Seat};
pub use mem_sink::MemSink;
pub use mem_store::MemStore;
pub use real_sink::RealSink;
pub use real_store::RealStore;
pub use sink::{Sink, SinkError};
pub use store::{Store, StoreError};
