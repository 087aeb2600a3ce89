use crate::Surface;
use gl_records::Size;
use std::test::Fail;

/// On 20 by 5 pixels the second tile begins at column 16, and reaches beyond the surface.
#[test]
fn pixels_by_their_places(rt: HostRuntime) -> Result<(), Fail> {
    let mut surface = Surface::new(rt.alloc(), Size { w: 20, h: 5 })?;
    let tiles = surface.tiles_mut();
    tiles[1].pixels[19].rgba = [1, 2, 3, 4];
    tiles[1].pixels[4].rgba = [5, 6, 7, 8];
    let pixels = [
        (19, 1, Some([1, 2, 3, 4])),
        (4, 1, Some([0; 4])),
        (20, 0, None),
        (19, 5, None),
        (-1, 0, None),
        (0, -1, None),
        (i32::MAX, i32::MAX, None),
    ];
    for (x, y, want) in pixels {
        let found = match surface.pixel(x, y) {
            Some(pixel) => {
                let color = pixel.rgba;
                Some(color)
            }
            None => None,
        };
        assert_eq!(rt; found, want);
    }
    let mut bytes = [9; 80];
    surface.row(1, &mut bytes);
    assert_eq!(rt; &bytes[75..], [0, 1, 2, 3, 4].as_slice());
    surface.row(0, &mut bytes);
    assert_eq!(rt; bytes, [0; 80]);
    Ok(())
}
