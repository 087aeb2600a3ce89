ghost use Rattle.std.specs.Prelude.{◌≡◌, IfOk};
ghost use Rattle.gl_records.specs.ImageBytes.{image_bytes};

use super::*;
use gl_records::{ImageSet, Level, Texels, VersionId};
use gl_tokens::BaseFormat;
use std::alloc::{AllocError, Global};
use std::test::Fail;

/// An image of one texel, at level 0.
#[tactic(auto, unfolding(gl_records::specs::ImageBytes::image_bytes))]
fn image(alloc: Global, texel: u32) -> Result<ImageSet, AllocError>
    ensures { IfOk result (λ image. image_bytes image ≡ 4) }
{
    let mut image = ImageSet::empty();
    image.levels[0] = Some(Level {
        w: 1,
        h: 1,
        format: BaseFormat::Rgba,
        texels: Texels::new(Vec::from_slice(alloc, &[texel])?),
    });
    Ok(image)
}

/// The texel of such an image.
fn texel(image: &ImageSet) -> Option<u32> {
    match &image.levels[0] {
        Some(level) => level.texels.as_slice().first().copied(),
        None => None,
    }
}

#[test]
fn versions_of_two_textures(rt: HostRuntime) -> Result<(), Fail> {
    let alloc = rt.alloc();
    let lent = Lent::empty(alloc);
    let mut images = Images::new(alloc);
    assert_eq!(rt; images.commit(&lent, None, None)?, None);
    let Some(v) = images.commit(&lent, None, Some(image(alloc, 7)?))? else {
        unreachable!();
    };
    let w = images.commit(&lent, None, Some(image(alloc, 8)?))?;
    assert_eq!(rt; images.plan_write(&lent, v, 4), Wrote::InPlace);
    assert_eq!(rt; texel(images.get(&lent, v)), Some(7));
    // no pass names it: the new contents take its number
    assert_eq!(rt;
        images.commit(&lent, Some(v), Some(image(alloc, 9)?))?,
        Some(v)
    );
    let old = images.exchange(v, ImageSet::empty());
    assert_eq!(rt; texel(&old), Some(9));
    assert_eq!(rt; images.get(&lent, v).bytes(), 0);
    images.exchange(v, old);
    assert_eq!(rt; texel(images.get(&lent, v)), Some(9));
    // a number is given again once its version is gone
    assert_eq!(rt; images.commit(&lent, w, None)?, None);
    assert_eq!(rt; images.commit(&lent, None, Some(image(alloc, 3)?))?, w);
    assert_eq!(rt; images.ghosts(), 0);
    Ok(())
}
