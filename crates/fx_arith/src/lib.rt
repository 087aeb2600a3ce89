//! GLfixed arithmetic: numbers with 16 fractional bits, as OpenGL ES Common-Lite takes them.
//!
//! Each call is exactly its definition in `specs/`, on whole numbers without bound, rounded by
//! floor once and then clamped.
//!
//! ```text
//! c8(Fx(65536)) // 255, the byte of 1.0
//! c8(Fx(32768)) // 128, the byte of 0.5
//! mul(Fx(-1), Fx(1)) // Fx(-1), rounded down
//! ```
#![tactic(auto)]

mod angle;
mod arithmetic;
mod color;
mod difference;
mod dot;
mod floor;
mod fx;
mod mat4;
mod power;
mod vector;

pub use angle::{cos_deg, sin_deg};
pub use arithmetic::{add, div, mul, product, sub};
pub use color::{c8, fixed_from_byte, in_unit};
pub use difference::span;
pub use dot::{dot3, dot4};
pub use floor::{
    floor_div, floor_div_wide, floor_quotient, floor_quotient_128, floor_quotient_wide,
};
pub use fx::{Fx, clamp, saturate, saturate_wide};
pub use mat4::Mat4;
pub use power::{exp_neg, powi};
pub use vector::{isqrt, len3, normalise3};

#[cfg(test)]
mod tests {
    use super::*;

    const LEAST: Fx = Fx(i32::MIN);

    const GREATEST: Fx = Fx(i32::MAX);

    const HALF: Fx = Fx(32768);

    #[test]
    fn rounding_and_saturation(rt: HostRuntime) {
        let table = [
            (mul(Fx(-1), Fx(1)), Fx(-1)),
            (mul(Fx(1), Fx(1)), Fx(0)),
            (mul(LEAST, LEAST), GREATEST),
            (mul(HALF, HALF), Fx(16384)),
            (add(GREATEST, Fx(1)), GREATEST),
            (sub(Fx(0), LEAST), GREATEST),
            (div(Fx::ONE, 3 * 65536), Fx(21845)),
            (div(Fx(-1), 3), Fx(-21846)),
            (div(Fx(1), -3), Fx(-21846)),
            (div(LEAST, -1), GREATEST),
            (div(Fx(1), i64::MIN), Fx(-1)),
            (dot3([HALF; 3], [Fx(1); 3]), Fx(1)),
            (dot4([HALF; 4], [Fx(-1); 4]), Fx(-2)),
            (dot4([LEAST; 4], [LEAST; 4]), GREATEST),
            (clamp(Fx(-5), Fx::ZERO, Fx::ONE), Fx::ZERO),
            (saturate(-1 << 40), LEAST),
            (saturate_wide(1 << 100), GREATEST),
        ];
        for (got, want) in table {
            assert_eq!(rt; got, want);
        }
        assert_eq!(rt; floor_div(-7, 2), -4);
        assert_eq!(rt;
            floor_div_wide(-1 << 100, 3),
            -422550200076076467165567735126
        );
        assert_eq!(rt; floor_quotient(7, -2), -4);
        assert_eq!(rt; floor_quotient_wide(7, -2), -4);
        assert_eq!(rt; floor_quotient_128(1 << 120, -3 << 100), -349526);
        assert_eq!(rt; c8(HALF), 128);
        assert_eq!(rt; in_unit(Fx(-1)), Fx::ZERO);
        assert_eq!(rt; in_unit(Fx(65537)), Fx::ONE);
        assert_eq!(rt; fixed_from_byte(255), Fx::ONE);
        assert_eq!(rt; fixed_from_byte(1), Fx(257));
        assert_eq!(rt; fixed_from_byte(128), Fx(32896));
        assert_eq!(rt; span(i32::MAX, i32::MIN), -4294967295);
    }

    #[test]
    fn angles_and_powers(rt: HostRuntime) {
        let degree = 65536;
        let table = [
            (sin_deg(Fx(0)), 0),
            (sin_deg(Fx(1)), 0),
            (sin_deg(Fx(90)), 1),
            (sin_deg(Fx(30 * degree)), 32767),
            (sin_deg(Fx(90 * degree)), 65536),
            (sin_deg(Fx(150 * degree)), 32768),
            (sin_deg(Fx(180 * degree)), 0),
            (sin_deg(Fx(210 * degree)), -32767),
            (sin_deg(Fx(270 * degree)), -65536),
            (sin_deg(Fx(-30 * degree)), -32768),
            (sin_deg(Fx(720 * degree)), 0),
            (sin_deg(Fx(-1)), -1),
            (cos_deg(Fx(0)), 65536),
            (cos_deg(Fx(120 * degree)), -32767),
            (cos_deg(Fx(-90 * degree)), 0),
            (cos_deg(GREATEST), 64869),
            (exp_neg(Fx(0)), 65536),
            (exp_neg(Fx(65536)), 24167),
            (exp_neg(Fx(11 * 65536)), 1),
            (exp_neg(GREATEST), 0),
            (powi(HALF, 0), 65536),
            (powi(HALF, 3), 8192),
            (powi(Fx(-3 * 65536), 3), -27 * 65536),
            (powi(Fx(-1), 2), 0),
            (powi(Fx(-2 * 65536), 255), i32::MIN),
        ];
        for (got, want) in table {
            assert_eq!(rt; got, Fx(want));
        }
    }

    #[test]
    fn roots_and_directions(rt: HostRuntime) {
        let roots = [
            (isqrt(0), 0),
            (isqrt(1), 1),
            (isqrt(3), 1),
            (isqrt(4), 2),
            (isqrt(65536 * 65536 - 1), 65535),
            (isqrt(65536 * 65536), 65536),
            (isqrt(3037000499 * 3037000499), 3037000499),
            (isqrt(u64::MAX), u32::MAX),
        ];
        for (got, want) in roots {
            assert_eq!(rt; got, want);
        }
        assert_eq!(rt; len3([LEAST; 3]), 3719550786);
        assert_eq!(rt; Mat4::identity().0[15], Fx::ONE);
        assert_eq!(rt; normalise3([Fx::ZERO; 3]), [Fx::ZERO; 3]);
        assert_eq!(rt; normalise3([Fx(1); 3]), [Fx::ONE; 3]);
        assert_eq!(rt;
            normalise3([Fx(-3 * 65536), Fx(0), Fx(4 * 65536)]),
            [Fx(-39322), Fx(0), Fx(52428)]
        );
    }
}
