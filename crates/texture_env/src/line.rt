//! What was found out of the pixels of a row of a tile.
ghost use Rattle.std.specs.Prelude.{◌≡◌, ℕ, ◌<◌, ◌≤◌, IfSome, IsTrue, true};
ghost use Rattle.std.specs.Int.{bit_at};
ghost use Rattle.std.specs.Option.{option_copied};
ghost use Rattle.gl_records.specs.Coverage.{covers};
ghost use Rattle.gl_records.specs.Interpolation.{interpolated_color as color_of_corners};
ghost use Rattle.interpolation.specs.Coordinates.{AreCoordinates};
ghost use Rattle.interpolation.specs.Rows.{AreRowCoordinates};
ghost use Rattle.interpolation.specs.TileValues.{IsSpotOf, OnTile, x_of, y_of};
ghost use Rattle.texture_env.specs.Lines.{IsLineOf, IsUnitLineOf};
ghost use Rattle.texture_env.specs.Rows.{HaveColors};

use crate::unit_line::UnitLine;
use interpolation::{Coordinates, Spot, TileValues};
use texel_sampler::run_of;

/// Which units' coordinates are asked for.
#[derive(Clone, Copy)]
pub struct AskedUnits {
    pub first: bool,
    pub second: bool,
}

/// The pixels of a row of a tile, and one beyond, in the columns from `first` up to but not including `end`.
#[derive(Clone, Copy)]
pub struct Line {
    row: u16,
    first: usize,
    end: usize,
    spots: [Spot; 17],
    one: UnitLine,
    two: UnitLine,
}

impl Line {
    /// No row yet.
    pub fn new() -> Line {
        let spot = Spot {
            column: 0,
            row: 0,
            by: None,
        };
        Line {
            row: 0,
            first: 0,
            end: 0,
            spots: [spot; 17],
            one: UnitLine::new(),
            two: UnitLine::new(),
        }
    }

    /// Nothing is known any more.
    pub fn forget(&mut self)
        ensures { (on : OnTile) → IsLineOf on self.new }
    {
        self.first = 0;
        self.end = 0;
    }

    /// Finds the pixels of this row in the columns from `from` up to but not including `to`, where they aren't there.
    pub fn find(
        &mut self,
        values: &TileValues<'_>,
        asked: AskedUnits,
        row: u16,
        from: usize,
        to: usize,
    )
        requires row { row ≤ 16 }
        requires to { to ≤ 17 }
        requires line { IsLineOf values.now self.old }
        ensures { IsLineOf values.now self.new }
    {
        if self.row == row && self.first <= from && to <= self.end {
            return;
        }
        self.row = row;
        self.first = from;
        self.end = to;
        values.spot_row(row, from, to, &mut self.spots);
        self.one
            .find(values, 0, asked.first, &self.spots, row, from, to);
        self.two
            .find(values, 1, asked.second, &self.spots, row, from, to);
    }

    /// The pixel in this column and row.
    pub fn spot(&self, values: &TileValues<'_>, column: u16, row: u16) -> Spot
        requires column { column ≤ 16 }
        requires row { row ≤ 16 }
        requires line { IsLineOf values.now self.now }
        ensures column { result.column ≡ column }
        ensures row { result.row ≡ row }
        ensures spot { IsSpotOf values.now result }
    {
        if self.has(column, row) {
            self.spots[usize::from(column)]
        } else {
            values.spot(column, row)
        }
    }

    /// The colours before texturing at the pixels of this row whose bits are set, all of which the primitive covers, where
    /// they are there and what is prepared gives them.
    pub fn colors(
        &self,
        values: &TileValues<'_>,
        bits: u16,
        row: u16,
        colors: &mut [[u8; 4]; 16],
    ) -> bool
        requires row { row ≤ 16 }
        requires line { IsLineOf values.now self.now }
        requires covered { (i : ℕ) → i < 16 → bit_at bits i ≡ 1 → IsTrue (covers values.now.prim (x_of values.now i) (y_of values.now row)) }
        ensures { result ≡ true → HaveColors bits (λ i. color_of_corners values.now.prim (x_of values.now i) (y_of values.now row)) colors.new }
    {
        let (first, end) = run_of(bits);
        if self.row == row && self.first <= first && end <= self.end {
            values.color_row(&self.spots, bits, row, self.first, self.end, colors)
        } else {
            false
        }
    }

    /// A unit's coordinates there.
    #[inline(always)]
    pub fn coordinates(
        &self,
        values: &TileValues<'_>,
        k: usize,
        column: u16,
        row: u16,
    ) -> Coordinates
        requires unit { k < 2 }
        requires column { column ≤ 16 }
        requires row { row ≤ 16 }
        requires line { IsLineOf values.now self.now }
        ensures { AreCoordinates result values.now.prim k (x_of values.now column) (y_of values.now row) }
    {
        values.coordinates(k, &self.spot(values, column, row))
    }

    /// A unit's coordinates at the pixels of this row in the columns from `from` up to but not including `to`, where they
    /// are known for all of these.
    pub fn known(&self, k: usize, row: u16, from: usize, to: usize) -> Option<&UnitLine>
        requires unit { k < 2 }
        ensures { (on : OnTile) → IsLineOf on self.now → IfSome (option_copied result) (λ line. AreRowCoordinates on k row from to line.s line.t) }
    {
        let unit = self.unit(k);
        if unit.known && self.row == row && self.first <= from && to <= self.end {
            Some(unit)
        } else {
            None
        }
    }

    #[inline(always)]
    fn unit(&self, k: usize) -> &UnitLine
        requires { k < 2 }
        ensures { (on : OnTile) → IsLineOf on self.now → IsUnitLineOf on k self.now.row self.now.first self.now.end result.now }
    {
        if k == 0 { &self.one } else { &self.two }
    }

    #[inline(always)]
    fn has(&self, column: u16, row: u16) -> bool
        ensures row { result ≡ true → self.now.row ≡ row }
        ensures from { result ≡ true → self.now.first ≤ column }
        ensures to { result ≡ true → column < self.now.end }
    {
        let column = usize::from(column);
        self.row == row && self.first <= column && column < self.end
    }
}
