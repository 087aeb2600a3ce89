//! The steps of a colour, each for a row of a tile at once.
ghost use Rattle.std.specs.Prelude.{◌≡◌, ◌<◌, [], IsTrue, Some, get_or, true};
ghost use Rattle.gl_records.specs.Coverage.{covers};
ghost use Rattle.gl_records.specs.FogColor.{fogged as fogged_color};
ghost use Rattle.gl_records.specs.Interpolation.{interpolated_color as color_of_corners};
ghost use Rattle.interpolation.specs.TileValues.{x_of, y_of};
ghost use Rattle.texture_env.specs.Rows.{AreCoveredOn, HaveColors};

use crate::fog::fogged_by;
use crate::row_values::RowValues;
use texel_sampler::is_set;

/// The colours before texturing.
pub fn primary_row(at: &RowValues<'_>, bits: u16, colors: &mut [[u8; 4]; 16])
    requires { AreCoveredOn at.now bits }
    ensures { HaveColors bits (λ i. color_of_corners at.now.on.prim (x_of at.now.on i) (y_of at.now.on at.now.row)) colors.new }
{
    if at.colors(bits, colors) {
        return;
    }
    for i in 0..16 {
        let set = is_set(bits, i);
        colors[i] = primary_where(set, at, i as u16, colors[i]);
    }
}

fn primary_where(set: bool, at: &RowValues<'_>, column: u16, other: [u8; 4]) -> [u8; 4]
    requires column { column < 16 }
    requires covered { set ≡ true → IsTrue (covers at.now.on.prim (x_of at.now.on column) (y_of at.now.on at.now.row)) }
    ensures { set ≡ true → result ≡ color_of_corners at.now.on.prim (x_of at.now.on column) (y_of at.now.on at.now.row) }
{
    if set { at.color(column) } else { other }
}

/// The colours in fog, where fog is on.
pub fn fogged_row(at: &RowValues<'_>, fog: Option<[u8; 4]>, bits: u16, colors: &mut [[u8; 4]; 16])
    requires { AreCoveredOn at.now bits }
    ensures { HaveColors bits
        (λ i. fogged_color fog at.now.on.prim (x_of at.now.on i) (y_of at.now.on at.now.row) (get_or colors.old i [])) colors.new }
{
    if let Some(fog) = fog {
        in_fog_row(at, fog, bits, colors);
    }
}

fn in_fog_row(at: &RowValues<'_>, fog: [u8; 4], bits: u16, colors: &mut [[u8; 4]; 16])
    requires { AreCoveredOn at.now bits }
    ensures { HaveColors bits
        (λ i. fogged_color (Some fog) at.now.on.prim (x_of at.now.on i) (y_of at.now.on at.now.row) (get_or colors.old i [])) colors.new }
{
    for i in 0..16 {
        let set = is_set(bits, i);
        colors[i] = fogged_where(set, at, fog, i as u16, colors[i]);
    }
}

fn fogged_where(set: bool, at: &RowValues<'_>, fog: [u8; 4], column: u16, color: [u8; 4]) -> [u8; 4]
    requires column { column < 16 }
    requires covered { set ≡ true → IsTrue (covers at.now.on.prim (x_of at.now.on column) (y_of at.now.on at.now.row)) }
    ensures { set ≡ true → result ≡ fogged_color (Some fog) at.now.on.prim (x_of at.now.on column) (y_of at.now.on at.now.row) color }
{
    if set {
        fogged_by(at.fog_byte(column), fog, color)
    } else {
        color
    }
}
