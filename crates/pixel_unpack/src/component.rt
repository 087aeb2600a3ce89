//! Components of 1, 4, 5 and 6 bits as bytes, rounded to the nearest.
ghost use Rattle.std.specs.Prelude.{◌≡◌, ◌+◌, ◌<◌, ◌^◌};
ghost use Rattle.pixel_unpack.specs.Component.{component};

/// The bit at a place, up to 15, as a byte: 0 or 255.
pub fn one_bit(number: u16, low: u8) -> u8
    requires { low < 16 }
    ensures { result ≡ component 1 low number }
{
    ((number >> low) % 2 * 255) as u8
}

/// The four bits from a place on.
pub fn four_bits(number: u16, low: u8) -> u8
    requires { low < 16 }
    ensures { result ≡ component 4 low number }
{
    ((255 * ((number >> low) % 16) + 7) / 15) as u8
}

/// The five bits from a place on.
pub fn five_bits(number: u16, low: u8) -> u8
    requires { low < 16 }
    ensures { result ≡ component 5 low number }
{
    ((255 * ((number >> low) % 32) + 15) / 31) as u8
}

/// The six bits from a place on.
pub fn six_bits(number: u16, low: u8) -> u8
    requires { low < 16 }
    ensures { result ≡ component 6 low number }
{
    ((255 * ((number >> low) % 64) + 31) / 63) as u8
}
