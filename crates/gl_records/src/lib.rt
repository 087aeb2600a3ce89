//! The plain types that the crates hand to one another, and what is true of one pixel at a time.
//!
//! The definitions in `specs/` are those of the immediate renderer: what an item does to a pixel, and the
//! pixel after a list of items. They know no tile, no pass and no waiting; every crate above cites them.
//!
//! ```text
//! let area = PixelBox { x0: 0, y0: 0, x1: 2, y1: 1 };
//! area.holds(1, 0) // true
//! area.holds(2, 0) // false
//! ```
#![tactic(auto)]

mod attribs;
mod bytes;
mod bytes_at;
mod clear;
mod clip_vertex;
mod combine;
mod complete;
mod env;
mod fog_rule;
mod frag;
mod frag_state;
mod item;
mod laws;
mod level;
mod level_choice;
mod light;
mod logarithm;
mod material;
mod params;
mod pixel;
mod pixel_box;
mod point_square;
mod prim;
mod rec;
mod sampler;
mod setup_rules;
mod size;
mod stencil_state;
mod texels;
mod tile;
mod unit_state;
mod version_id;
mod vertex_state;
mod words;

pub use attribs::Attribs;
pub use bytes::Bytes;
pub use bytes_at::{byte_at, four_at, short_at, three_at, two_at};
pub use clear::ClearItem;
pub use clip_vertex::ClipVertex;
pub use combine::Combine;
pub use complete::{is_complete, is_empty, last_level};
pub use env::Env;
pub use fog_rule::FogRule;
pub use frag::Frag;
pub use frag_state::FragState;
pub use item::Item;
pub use laws::drawn_pixels;
pub use level::{ImageSet, Level};
pub use level_choice::LevelChoice;
pub use light::Light;
pub use logarithm::top_bit;
pub use material::Material;
pub use params::{Columns, Params};
pub use pixel::{GREATEST_DEPTH, Pixel};
pub use pixel_box::PixelBox;
pub use point_square::first_about;
pub use prim::{Prim, PrimKind, Primitive, VertexOut};
pub use rec::Rec;
pub use sampler::Sampler;
pub use setup_rules::SetupRules;
pub use size::{GREATEST_SIDE, Size};
pub use stencil_state::StencilState;
pub use texels::Texels;
pub use tile::{TileRect, tile_rect};
pub use unit_state::UnitState;
pub use version_id::VersionId;
pub use vertex_state::VertexState;
pub use words::Words;
