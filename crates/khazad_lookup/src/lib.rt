// Khazad by lookup tables: the fast engine.
//
// `LookupKhazad` is the engine of `khazad` over the layers by tables. A round takes eight look-ups in tables of 256 blocks;
// nothing here says that the time of a look-up does not depend on the byte that is looked up.
#![tactic(auto)]

mod by_tables;
mod tables;

pub use by_tables::ByTables;
use khazad::Khazad;

// Khazad by lookup tables.
pub type LookupKhazad = Khazad<ByTables>;
