//! The canonical file of a store, written.
#![tactic(auto)]

mod bodies;
mod file;
mod grpl;
mod header;
mod idat;
mod iinf;
mod iloc;
mod ipco;
mod ipma;
mod iprp;
mod iref;
mod matching;
mod mdat;

pub use bodies::put_pieces;
pub use file::write;
pub use matching::same;
