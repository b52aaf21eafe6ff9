//! Writes images and metadata that are read as they were written: Partition II, 24 and 25.
#![tactic(auto)]

mod columns;
mod content;
mod field;
mod fits;
mod headers;
mod image;
mod metadata;
mod part;
mod root;
mod rows;

pub use content::Content;
pub use image::write_image;
pub use metadata::write_metadata;
