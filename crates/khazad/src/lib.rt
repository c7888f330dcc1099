// Khazad: an engine over every way to work out the layers, and the way by field arithmetic, in which the box S is worked
// out from its mini-boxes and θ by products in the field.
#![tactic(auto)]

mod by_field;
mod engine;
mod field;
mod keys;
mod layers;
mod sbox;
#[cfg(test)]
mod tests;

pub use by_field::ByField;
pub use engine::Khazad;
pub use layers::Layers;

// Khazad by field arithmetic.
pub type FieldKhazad = Khazad<ByField>;
