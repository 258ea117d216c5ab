// Values and corner values of the next level, computed from those of the standing level, for every kind.
#![tactic(auto)]

mod around;
mod corners;
pub mod lent;
mod mix;
mod moved;
mod reads;
mod rows;
mod seen;
pub mod standing;
mod valued;
mod values;
mod vertex;
