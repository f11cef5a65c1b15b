//! Pages: their redo, and the blocks of a device that hold them.
#![tactic(auto)]

// Why a block is no page.
mod fault;
// A slot as bytes.
mod slot;
// Comparison of images.
mod same;
// A page in memory.
mod page;
// A page as the bytes of a block.
mod block;

pub use fault::Fault;
pub use page::Page;
pub use same::same_image;
