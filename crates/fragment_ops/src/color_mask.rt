ghost use Rattle.std.specs.Prelude.{◌≡◌};
ghost use Rattle.gl_records.specs.ColorMask.{masked_color};

/// The components of a colour that the colour mask lets through, and the others of what was there
/// (OpenGL ES 1.1.12, 4.2.2).
pub fn masked(color: &[u8; 4], mask: &[bool; 4], under: &[u8; 4]) -> [u8; 4]
    ensures { result ≡ masked_color color.now mask.now under.now }
{
    [
        if mask[0] { color[0] } else { under[0] },
        if mask[1] { color[1] } else { under[1] },
        if mask[2] { color[2] } else { under[2] },
        if mask[3] { color[3] } else { under[3] },
    ]
}
