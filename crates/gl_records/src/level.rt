ghost use Rattle.std.specs.Prelude.{◌≡◌, ◌<◌, ◌^◌};
ghost use Rattle.std.specs.List.{sum_by};
ghost use Rattle.gl_records.specs.ImageBytes.{level_bytes, image_bytes, empty_image};

use crate::texels::Texels;
use gl_tokens::BaseFormat;

/// One level of a texture's image. It is empty where a side is 0, or where its texels aren't as many as `w` times
/// `h`.
#[derive(Drop)]
pub struct Level {
    /// The texels of a row.
    pub w: u16,
    /// The rows.
    pub h: u16,
    /// The components that the image was given with.
    pub format: BaseFormat,
    /// By rows from the bottom, each from the left.
    pub texels: Texels,
}

/// A texture's image: its levels, the largest at 0; `None` where a level was never given.
#[derive(Drop)]
pub struct ImageSet {
    pub levels: [Option<Level>; 11],
}

/// The bytes that a level counts for limits: 4 for each texel, none where it was never given.
fn level_bytes(level: &Option<Level>) -> u128
    ensures value { result ≡ level_bytes level.now }
    ensures most { result < 2 ^ 66 }
{
    match level {
        Some(level) => 4 * level.texels.as_slice().len() as u128,
        None => 0,
    }
}

/// The bytes of all levels.
fn all_bytes(levels: &[Option<Level>; 11]) -> u128
    ensures { result ≡ sum_by level_bytes levels.now }
{
    let mut total = 0;
    for level in levels {
        total += level_bytes(level);
    }
    total
}

impl ImageSet {
    /// An image of which no level was given.
    pub fn empty() -> ImageSet
        ensures { result ≡ empty_image }
    {
        ImageSet {
            levels: [
                None, None, None, None, None, None, None, None, None, None, None,
            ],
        }
    }

    /// The bytes that the image counts for limits: 4 for each texel of each level.
    #[tactic(auto, unfolding(crate::specs::ImageBytes::image_bytes))]
    pub fn bytes(&self) -> u128
        ensures { result ≡ image_bytes self.now }
    {
        all_bytes(&self.levels)
    }
}

#[cfg(test)]
mod tests {
    use super::*;
    use std::test::Fail;

    #[test]
    fn four_bytes_for_each_texel_of_each_level(rt: HostRuntime) -> Result<(), Fail> {
        let alloc = rt.alloc();
        let mut image = ImageSet::empty();
        assert_eq!(rt; image.bytes(), 0);
        // 2 by 2 texels at level 0, and one texel at level 10
        image.levels[0] = Some(Level {
            w: 2,
            h: 2,
            format: BaseFormat::Rgb,
            texels: Texels::new(Vec::from_slice(alloc, &[1, 2, 3, 4])?),
        });
        assert_eq!(rt; image.bytes(), 16);
        image.levels[10] = Some(Level {
            w: 1,
            h: 1,
            format: BaseFormat::Rgb,
            texels: Texels::new(Vec::from_slice(alloc, &[5])?),
        });
        assert_eq!(rt; image.bytes(), 20);
        Ok(())
    }

    #[test]
    fn texels_are_written_where_they_stand(rt: HostRuntime) -> Result<(), Fail> {
        let mut texels = Texels::new(Vec::from_slice(rt.alloc(), &[1, 2, 3])?);
        texels.as_mut_slice()[1] = 9;
        let written = texels.into_vec();
        assert_eq!(rt; written[1], 9);
        assert_eq!(rt; written[2], 3);
        Ok(())
    }
}
