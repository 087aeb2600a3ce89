//! Names, parameters, images and bytes, in tables worked out by hand from the commands' rules.
ghost use Rattle.std.specs.Prelude.{◌<◌};

use super::*;
use gl_records::{Bytes, Rec, Sampler};
use gl_tokens::GlError;
use std::alloc::{AllocError, Global};
use std::marker::Model;
use std::test::Fail;
use texture_ghosts::{Images, Lent};

const ENUM: Option<GlError> = Some(GlError::InvalidEnum);

const TEXTURE: u32 = 0x0DE1;

const RGB: u32 = 0x1907;

const RGBA: u32 = 0x1908;

const MIN: u32 = 0x2801;

const REMAKES: u32 = 0x8191;

/// Texture objects beside the versions of their images, of which none is lent.
#[derive(Drop)]
struct Held {
    textures: Textures,
    images: Images,
    lent: Lent,
}

impl Model for Held {
    ghost use Rattle.std.specs.Prelude.{◌≡◌};
    ghost use Rattle.std.specs.Coded.{codes};
    ghost use Rattle.std.specs.FinMap as map;
    ghost use Rattle.texture_store.specs.Textures.{TextureObjects};
    ghost use Rattle.texture_store.specs.Stored.{AreOf, objects_of};

    ghost Value = { TextureObjects };

    ghost coded = { Prim.hlevel (codes, map.code) };

    ghost view = { λ held. objects_of held.textures };

    ghost invariant = { λ held. AreOf held.textures held.images × (held.lent ≡ held.images.lent) };
}

impl Held {
    fn new(alloc: Global) -> Held {
        Held {
            textures: Textures::new(alloc),
            images: Images::new(alloc),
            lent: Lent::empty(alloc),
        }
    }

    fn bind(&mut self, unit: u8, name: u32) -> Result<Option<GlError>, AllocError>
        requires { unit < 2 }
    {
        self.textures.bind(unit, TEXTURE, name)
    }

    fn drop_names(&mut self, names: &[u32]) -> Written {
        self.textures
            .drop_names(&mut self.images, &self.lent, names)
    }

    /// Binds a name to a unit and deletes names; what is bound to both units behind it.
    fn bound_behind(&mut self, unit: u8, name: u32, gone: &[u32]) -> Result<(u32, u32), AllocError>
        requires { unit < 2 }
    {
        self.bind(unit, name)?;
        self.drop_names(gone);
        Ok((self.textures.bound(0), self.textures.bound(1)))
    }

    /// Runs a command of images for unit 0, with rows that begin on multiples of 4.
    fn write(&mut self, rec: &Rec) -> Result<Written, AllocError> {
        self.textures.write(&mut self.images, &self.lent, 0, 4, rec)
    }

    /// Whether the texture of unit 0 is complete, by the filter that minifies.
    fn is_complete(&mut self, filter: u32) -> bool {
        self.textures.set_param(0, TEXTURE, MIN, filter);
        self.textures
            .unit_image(&self.images, &self.lent, 0)
            .is_some()
    }

    /// Whether a level makes the image complete for a filter of one level, and for one of several.
    fn complete_behind(&mut self, rec: &Rec) -> Result<(bool, bool), AllocError> {
        self.write(rec)?;
        Ok((self.is_complete(0x2600), self.is_complete(0x2702)))
    }

    /// The codes of a unit's filters and wraps; zeros where its texture is incomplete.
    fn codes(&self, unit: u8) -> (u32, u32, u32, u32)
        requires { unit < 2 }
    {
        match self.textures.unit_image(&self.images, &self.lent, unit) {
            Some((_, _, sampler)) => codes_of(sampler),
            None => (0, 0, 0, 0),
        }
    }
}

fn codes_of(sampler: Sampler) -> (u32, u32, u32, u32) {
    (
        sampler.mag.code(),
        sampler.min.code(),
        sampler.wrap_s.code(),
        sampler.wrap_t.code(),
    )
}

/// TexImage2D of bytes that are 0.
fn level_rec(
    alloc: Global,
    level: i32,
    format: u32,
    width: i32,
    height: i32,
) -> Result<Rec, AllocError> {
    Ok(Rec::TexImage2D {
        target: TEXTURE,
        level,
        internal: format,
        width,
        height,
        border: 0,
        format,
        kind: 0x1401,
        piece: Bytes::new(Vec::new(alloc)),
    })
}

#[test]
fn names_are_the_least_free(rt: HostRuntime) -> Result<(), Fail> {
    let mut held = Held::new(rt.alloc());
    // names that are deleted, one that is bound, how many are asked for, and which are given
    let table: [(&[u32], u32, i32, &[u32]); 6] = [
        (&[], 0, 2, &[1, 2]),
        (&[], 0, 0, &[]),
        (&[1], 5, 3, &[1, 3, 4]),
        (&[2, 0, 2, 9], 7, 2, &[2, 6]),
        (&[7, 3, 1], 1, 2, &[3, 7]),
        (&[4, 5, 6], 6, 3, &[4, 5, 8]),
    ];
    for (gone, bound, count, want) in table {
        assert_eq!(rt; held.drop_names(gone), Written::Done);
        assert_eq!(rt; held.bind(0, bound)?, None);
        match held.textures.make_names(count)? {
            Ok(names) => assert_eq!(rt; names.as_slice(), want),
            Err(error) => assert_eq!(rt; Some(error), None),
        }
    }
    Ok(())
}

#[test]
fn bound_and_deleted(rt: HostRuntime) -> Result<(), Fail> {
    let mut held = Held::new(rt.alloc());
    // a unit, the name that is bound to it, names that are deleted then, and what is bound to both behind it
    let table: [(u8, u32, &[u32], (u32, u32)); 8] = [
        (0, 2, &[], (2, 0)),
        (1, 2, &[1, 3], (2, 2)),
        (1, 9, &[0], (2, 9)),
        (0, 9, &[2, 2], (9, 9)),
        (0, 4, &[9, 0, 9], (4, 0)),
        (1, 4, &[5, 4, 5, 4], (0, 0)),
        (1, 6, &[8], (0, 6)),
        (1, 0, &[0], (0, 0)),
    ];
    for (unit, name, gone, want) in table {
        assert_eq!(rt; held.bound_behind(unit, name, gone)?, want);
    }
    Ok(())
}

#[test]
fn names_that_stand_for_textures(rt: HostRuntime) -> Result<(), Fail> {
    let mut held = Held::new(rt.alloc());
    // names 1 and 2 are given
    let _ = held.textures.make_names(2)?;
    held.bind(1, 4)?;
    // names that are deleted, a name, and whether it stands for a texture then
    let table: [(&[u32], u32, bool); 6] = [
        (&[], 0, false),
        (&[], 1, false),
        (&[], 3, false),
        (&[1, 2], 4, true),
        (&[0, 4], 4, false),
        (&[4], 0, false),
    ];
    for (gone, name, want) in table {
        held.drop_names(gone);
        assert_eq!(rt; held.textures.is_texture(name), want);
    }
    Ok(())
}

#[test]
fn parameters_and_their_errors(rt: HostRuntime) -> Result<(), Fail> {
    let mut held = Held::new(rt.alloc());
    held.write(&level_rec(rt.alloc(), 0, RGB, 1, 1)?)?;
    // target, parameter, value, the error, and the codes behind it: filters and wraps
    let table = [
        ((0x0DE0, 0, 0), ENUM, (0x2601, 0x2702, 0x2901, 0x2901)),
        ((TEXTURE, 0x2804, 0), ENUM, (0x2601, 0x2702, 0x2901, 0x2901)),
        (
            (TEXTURE, 0x2800, 0x2700),
            ENUM,
            (0x2601, 0x2702, 0x2901, 0x2901),
        ),
        (
            (TEXTURE, 0x2800, 0x2600),
            None,
            (0x2600, 0x2702, 0x2901, 0x2901),
        ),
        (
            (TEXTURE, MIN, 0x2704),
            ENUM,
            (0x2600, 0x2702, 0x2901, 0x2901),
        ),
        (
            (TEXTURE, MIN, 0x2701),
            None,
            (0x2600, 0x2701, 0x2901, 0x2901),
        ),
        (
            (TEXTURE, 0x2802, 0x2900),
            ENUM,
            (0x2600, 0x2701, 0x2901, 0x2901),
        ),
        (
            (TEXTURE, 0x2802, 0x812F),
            None,
            (0x2600, 0x2701, 0x812F, 0x2901),
        ),
        (
            (TEXTURE, 0x2803, 0x812F),
            None,
            (0x2600, 0x2701, 0x812F, 0x812F),
        ),
        (
            (TEXTURE, 0x2802, 0x2901),
            None,
            (0x2600, 0x2701, 0x2901, 0x812F),
        ),
        (
            (TEXTURE, REMAKES, 7),
            None,
            (0x2600, 0x2701, 0x2901, 0x812F),
        ),
        ((0x0DE0, REMAKES, 7), ENUM, (0x2600, 0x2701, 0x2901, 0x812F)),
    ];
    for ((target, parameter, value), error, want) in table {
        assert_eq!(rt; held.textures.set_param(0, target, parameter, value), error);
        // texture 0 is one for both units
        assert_eq!(rt; held.codes(1), want);
    }
    Ok(())
}

#[test]
fn images_that_are_complete(rt: HostRuntime) -> Result<(), Fail> {
    let mut held = Held::new(rt.alloc());
    // whether levels are made, a level, its format and sides, and whether the image is complete for a filter of one
    // level, and for one of several
    let table = [
        // no level 0
        (0, 1, RGB, 1, 1, (false, false)),
        (0, 0, RGB, 2, 1, (true, true)),
        // level 1 is no half of this
        (0, 0, RGB, 4, 1, (true, false)),
        (0, 1, RGBA, 2, 1, (true, false)),
        (0, 1, RGB, 2, 1, (true, false)),
        (0, 2, RGB, 1, 1, (true, true)),
        // a side of 0
        (0, 1, RGB, 2, 0, (true, false)),
        (0, 0, RGB, 0, 0, (false, false)),
        (0, 0, RGBA, 1, 1, (true, true)),
        (0, 0, RGBA, 8, 2, (true, false)),
        (1, 0, RGBA, 8, 2, (true, true)),
    ];
    for (remakes, level, format, width, height, want) in table {
        held.textures.set_param(0, TEXTURE, REMAKES, remakes);
        let rec = level_rec(rt.alloc(), level, format, width, height)?;
        assert_eq!(rt; held.complete_behind(&rec)?, want);
    }
    Ok(())
}
