//! Lawful but odd buffers and storages, for tests of code that relies on a trait's laws alone.
mod asked;
mod drip;
mod refuse_after;
mod zeros;

pub use asked::Asked;
pub use drip::Drip;
pub use refuse_after::RefuseAfter;
pub use zeros::Zeros;
