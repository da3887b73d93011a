//! Numbers, limits and refusals, and the fields that every reader begins with.
#![tactic(auto)]

pub mod chain_laws;
mod fault;
mod four;
mod front;
mod id;
mod ids;
pub mod kinds;
pub mod laws;
pub mod limits;
mod loc;
pub mod location_laws;
mod number;
mod seen;
mod series;
pub mod worked;
pub mod worked_locations;

pub use fault::{NoMemory, OpenFault, ReadRefusal};
pub use four::{FourCc, four_at};
pub use front::{front_kind, front_version, front8, front16, front24, front32, front64, split};
pub use id::{front_id, id_width};
pub use ids::Ids;
pub use loc::{Extent, Extents, Loc, RefBox};
pub use number::{be_put, be16, be32, be64};
pub use seen::SeenIds;
pub use series::{Series, TryClone};
