//! Draws: their errors, and the elements of the arrays that they draw.
ghost use Rattle.std.specs.Prelude.{◌≡◌, ◌+◌, ◌<ℤ◌, pos, unsigned_abs};
ghost use Rattle.gl_tokens.specs.ComponentType.{from_code_of};
ghost use Rattle.vertex_fetch.specs.Draws.{is_bad_count as is_bad_count_of, draw_arrays_error, draw_elements_error, draw_error as draw_error_of, vertex_count, HasVertex, listed as listed_of, index_of};

use crate::regions::Regions;
use crate::storage::Storage;
use buffer_objects::{BufferKey, Buffers};
use gl_records::{Rec, byte_at, short_at};
use gl_tokens::{ComponentType, GlError, Mode};

/// The greatest number of vertices of a draw.
const GREATEST_COUNT: i32 = 1 << 22;

/// The first error of a draw that holds, or none. DrawArrays: InvalidEnum where there is no such mode, InvalidValue
/// where the first vertex lies below 0, or their number below 0 or above 2^22. DrawElements: InvalidEnum where there
/// is no such mode, InvalidValue where the number of vertices lies below 0 or above 2^22, InvalidEnum where the type
/// isn't UNSIGNED_BYTE or UNSIGNED_SHORT, InvalidValue where there is no such client region. `element` is the buffer object
/// that is bound to ELEMENT_ARRAY_BUFFER: indices lie in it, and only where there is none in a client region. Other
/// commands have none here.
pub fn draw_error(rec: &Rec, element: Option<BufferKey>) -> Option<GlError>
    ensures { result ≡ draw_error_of element rec.now }
{
    match *rec {
        Rec::DrawArrays { mode, first, count } => arrays_error(mode, first, count),
        Rec::DrawElements {
            mode,
            count,
            kind,
            region,
            ..
        } => elements_error(mode, count, kind, Storage::new(element, region)),
        _ => None,
    }
}

fn is_bad_count(count: i32) -> bool
    ensures { result ≡ is_bad_count_of count }
{
    count < 0 || GREATEST_COUNT < count
}

fn arrays_error(mode: u32, first: i32, count: i32) -> Option<GlError>
    ensures { result ≡ draw_arrays_error mode first count }
{
    if Mode::from_code(mode).is_none() {
        return Some(GlError::InvalidEnum);
    }
    if first < 0 || is_bad_count(count) {
        return Some(GlError::InvalidValue);
    }
    None
}

fn elements_error(mode: u32, count: i32, kind: u32, indices: Storage) -> Option<GlError>
    ensures { result ≡ draw_elements_error mode count kind indices }
{
    if Mode::from_code(mode).is_none() {
        return Some(GlError::InvalidEnum);
    }
    if is_bad_count(count) {
        return Some(GlError::InvalidValue);
    }
    match ComponentType::from_code(kind) {
        Some(ComponentType::UnsignedByte | ComponentType::UnsignedShort) => {}
        _ => return Some(GlError::InvalidEnum),
    }
    if indices.is_nowhere() {
        return Some(GlError::InvalidValue);
    }
    None
}

/// The element of the arrays that is vertex k of a draw: of DrawArrays the k-th from the first on, of DrawElements the
/// k-th index. The record is one of the two without error, and k is below its number of vertices. `element` is
/// the buffer object that is bound to ELEMENT_ARRAY_BUFFER. A byte that lies outside of what holds the indices is 0.
pub fn index_at(
    rec: &Rec,
    element: Option<BufferKey>,
    buffers: &Buffers,
    regions: &Regions,
    k: u32,
) -> u32
    requires { HasVertex element rec.now k }
    ensures { result ≡ index_of rec.now element buffers.now regions.now k }
{
    match *rec {
        Rec::DrawArrays { first, count, .. } => nth(first, count, k),
        Rec::DrawElements {
            kind,
            region,
            offset,
            ..
        } => listed(
            ComponentType::from_code(kind),
            Storage::new(element, region).bytes(buffers, regions),
            offset,
            k,
        ),
        _ => 0,
    }
}

/// The k-th element from this one on.
fn nth(first: i32, count: i32, k: u32) -> u32
    requires { pos k <ℤ count }
    ensures { result ≡ unsigned_abs first + k }
{
    let _count = count;
    first.unsigned_abs() + k
}

/// Index k of the indices that begin at this byte.
fn listed(kind: Option<ComponentType>, bytes: &[u8], offset: u32, k: u32) -> u32
    ensures { result ≡ listed_of kind bytes.now offset k }
{
    let (start, k) = (offset as usize, k as usize);
    match kind {
        Some(ComponentType::UnsignedByte) => u32::from(byte_at(bytes, start + k)),
        Some(ComponentType::UnsignedShort) => u32::from(short_at(bytes, start + k * 2)),
        _ => 0,
    }
}
