//! The records at the head of a file: its brands, its handler and the id of its primary item.
#![tactic(auto)]

mod ftyp;
mod hdlr;
pub mod laws;
mod pitm;
pub mod worked;

pub use ftyp::{Brands, give_ftyp, put_ftyp, read_ftyp};
pub use hdlr::{give_hdlr, put_hdlr, read_hdlr};
pub use pitm::{give_pitm, put_pitm, read_pitm};
