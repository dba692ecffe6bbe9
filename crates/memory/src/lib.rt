// The levels at the bottom of a pile, plain memory, two modules and an image, and the guard over any level.

#![tactic(auto)]

mod bytes;
mod check;
mod guard;
mod image;
mod modules;
mod plain;

pub use bytes::{Bytes, BytesMut};
pub use guard::Guard;
pub use image::Image;
pub use modules::Modules;
pub use plain::Plain;

#[cfg(test)]
mod tests;
