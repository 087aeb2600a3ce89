//! Client regions, vertex arrays, and the vertices that they give. An array lies in a buffer object or in a region.
//!
//! Contracts cite `with_region` and `bytes_of` for [`Regions`], `with_command` for [`Arrays`], `fetch_of` for [`fetch`],
//! `draw_error` for [`draw_error`] and `index_of` for [`index_at`]. The context runs commands on the two states, and a
//! draw fetches each of its vertices by its index.
//!
//! ```text
//! regions.set(0, bytes); // None
//! arrays.set(&Rec::EnableClientState { array: 0x8074 }, None); // None
//! let draw = Rec::DrawArrays { mode: 4, first: 6, count: 3 };
//! draw_error(&draw, None); // None
//! let element = index_at(&draw, None, &buffers, &regions, 1); // 7
//! let vertex = fetch(&arrays, &buffers, &regions, &current, element);
//! ```
#![tactic(auto)]

mod arrays;
mod component_format;
mod draws;
mod pointer;
mod regions;
mod storage;
#[cfg(test)]
mod tests;
mod vertex;
mod vertex_array;

pub use arrays::Arrays;
pub use component_format::ComponentFormat;
pub use draws::{draw_error, index_at};
pub use pointer::Pointer;
pub use regions::Regions;
pub use storage::Storage;
pub use vertex::fetch;
pub use vertex_array::VertexArray;
