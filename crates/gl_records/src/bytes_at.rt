//! The bytes of a list from a place on; one outside of the list is 0. Most reads lie inside, where the bytes are
//! read as they stand.
ghost use Rattle.std.specs.Prelude.{◌≡◌, ◌+◌, ◌<◌, ◌^◌, slice_index};
ghost use Rattle.gl_records.specs.BytesAt.{two_at, three_at, four_at, short_at};

/// The byte at a place.
pub fn byte_at(bytes: &[u8], place: usize) -> u8
    ensures { result ≡ slice_index bytes.now place }
{
    match bytes.get(place) {
        Some(&byte) => byte,
        None => 0,
    }
}

/// The two bytes from a place on.
pub fn two_at(bytes: &[u8], start: usize) -> [u8; 2]
    requires { start + 1 < 2 ^ 64 }
    ensures { result ≡ two_at bytes.now start }
{
    if start + 1 < bytes.len() {
        [bytes[start], bytes[start + 1]]
    } else {
        [byte_at(bytes, start), byte_at(bytes, start + 1)]
    }
}

/// The three bytes from a place on.
pub fn three_at(bytes: &[u8], start: usize) -> [u8; 3]
    requires { start + 2 < 2 ^ 64 }
    ensures { result ≡ three_at bytes.now start }
{
    if start + 2 < bytes.len() {
        [bytes[start], bytes[start + 1], bytes[start + 2]]
    } else {
        [
            byte_at(bytes, start),
            byte_at(bytes, start + 1),
            byte_at(bytes, start + 2),
        ]
    }
}

/// The four bytes from a place on.
pub fn four_at(bytes: &[u8], start: usize) -> [u8; 4]
    requires { start + 3 < 2 ^ 64 }
    ensures { result ≡ four_at bytes.now start }
{
    if start + 3 < bytes.len() {
        [
            bytes[start],
            bytes[start + 1],
            bytes[start + 2],
            bytes[start + 3],
        ]
    } else {
        [
            byte_at(bytes, start),
            byte_at(bytes, start + 1),
            byte_at(bytes, start + 2),
            byte_at(bytes, start + 3),
        ]
    }
}

/// The two bytes from a place on as a number, the low one first.
pub fn short_at(bytes: &[u8], start: usize) -> u16
    requires { start + 1 < 2 ^ 64 }
    ensures { result ≡ short_at bytes.now start }
{
    u16::from_le_bytes(two_at(bytes, start))
}
