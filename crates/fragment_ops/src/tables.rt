//! Tables worked out by hand, and of all pairs of blend factors by a script over fractions.
use crate::{blend, pixel_step, tests};
use gl_records::{Frag, FragState, Pixel, StencilState};
use gl_tokens::{BlendFactor, Compare, LogicOp, StencilOp};

/// Nothing is on, and each component is written.
const PLAIN: FragState = FragState {
    units: [None; 2],
    fog: None,
    scissor: None,
    alpha: None,
    stencil: None,
    depth: None,
    blend: None,
    logic: None,
    mask: [true; 4],
};

/// Every stencil value passes, and no operation changes it.
const STENCIL: StencilState = StencilState {
    func: Compare::Always,
    reference: 0xa5,
    mask: 255,
    write: 255,
    ops: [StencilOp::Keep; 3],
};

const WHITE: Frag = Frag {
    rgba: [255; 4],
    z: 100,
};

const STORED: Pixel = Pixel {
    rgba: [1, 2, 3, 4],
    z: 100,
    s: 100,
};

/// Whether 99, 100 and 101 pass against 100.
const COMPARISONS: [(Compare, [bool; 3]); 8] = [
    (Compare::Never, [false, false, false]),
    (Compare::Less, [true, false, false]),
    (Compare::Equal, [false, true, false]),
    (Compare::LessOrEqual, [true, true, false]),
    (Compare::Greater, [false, false, true]),
    (Compare::NotEqual, [true, false, true]),
    (Compare::GreaterOrEqual, [false, true, true]),
    (Compare::Always, [true, true, true]),
];

#[test]
fn comparisons_around_equality(rt: HostRuntime) {
    for (comparison, passes) in COMPARISONS {
        let alpha = FragState {
            alpha: Some((comparison, 100)),
            ..PLAIN
        };
        let depth = FragState {
            depth: Some((comparison, true)),
            ..PLAIN
        };
        for (incoming, want) in [99, 100, 101].into_iter().zip(passes) {
            let stencil = FragState {
                stencil: Some(StencilState {
                    func: comparison,
                    reference: 0xf0 | incoming,
                    mask: 0x0f,
                    ..STENCIL
                }),
                ..PLAIN
            };
            let fragment = Frag {
                rgba: [0, 0, 0, incoming],
                z: u32::from(incoming),
            };
            assert_eq!(rt; tests(&alpha, fragment, STORED).0, want);
            assert_eq!(rt; tests(&stencil, fragment, STORED).0, want);
            assert_eq!(rt; tests(&depth, fragment, STORED).0, want);
        }
    }
}

/// What becomes of 0, 1, 254 and 255 under the write masks 255, 0x0f and 0, with the reference 0xa5.
const OPERATIONS: [(StencilOp, [[u8; 4]; 3]); 6] = [
    (
        StencilOp::Zero,
        [
            [0x00, 0x00, 0x00, 0x00],
            [0x00, 0x00, 0xf0, 0xf0],
            [0x00, 0x01, 0xfe, 0xff],
        ],
    ),
    (
        StencilOp::Invert,
        [
            [0xff, 0xfe, 0x01, 0x00],
            [0x0f, 0x0e, 0xf1, 0xf0],
            [0x00, 0x01, 0xfe, 0xff],
        ],
    ),
    (
        StencilOp::Keep,
        [
            [0x00, 0x01, 0xfe, 0xff],
            [0x00, 0x01, 0xfe, 0xff],
            [0x00, 0x01, 0xfe, 0xff],
        ],
    ),
    (
        StencilOp::Replace,
        [
            [0xa5, 0xa5, 0xa5, 0xa5],
            [0x05, 0x05, 0xf5, 0xf5],
            [0x00, 0x01, 0xfe, 0xff],
        ],
    ),
    (
        StencilOp::Increment,
        [
            [0x01, 0x02, 0xff, 0xff],
            [0x01, 0x02, 0xff, 0xff],
            [0x00, 0x01, 0xfe, 0xff],
        ],
    ),
    (
        StencilOp::Decrement,
        [
            [0x00, 0x00, 0xfd, 0xfe],
            [0x00, 0x00, 0xfd, 0xfe],
            [0x00, 0x01, 0xfe, 0xff],
        ],
    ),
];

#[test]
fn stencil_operations_under_write_masks(rt: HostRuntime) {
    for (operation, rows) in OPERATIONS {
        for (write, row) in [255, 0x0f, 0].into_iter().zip(rows) {
            for (s, want) in [0, 1, 254, 255].into_iter().zip(row) {
                let state = FragState {
                    stencil: Some(StencilState {
                        write,
                        ops: [StencilOp::Keep, StencilOp::Keep, operation],
                        ..STENCIL
                    }),
                    ..PLAIN
                };
                let (passes, after) = tests(&state, WHITE, Pixel { s, ..STORED });
                assert!(rt; passes);
                assert_eq!(rt;
                    after,
                    Pixel { s: want, ..STORED },
                    "{operation:?} of {s} under {write}"
                );
            }
        }
    }
}

/// The outcomes of the tests, and what each leaves: of stencil values the operation of its own, of depths that of
/// the fragment where all pass and the mask lets it through.
#[test]
fn outcomes_of_the_tests(rt: HostRuntime) {
    let rows = [
        // reference, depth function, depth mask, the fragment's depth: passes, stencil value and depth behind
        (99, Compare::Less, true, 50, (false, 101, 100)),
        (100, Compare::Less, true, 100, (false, 99, 100)),
        (100, Compare::Less, true, 99, (true, 155, 99)),
        (100, Compare::Less, false, 99, (true, 155, 100)),
        (100, Compare::Always, true, 16777215, (true, 155, 16777215)),
    ];
    for (reference, comparison, write, z, (passes, s, depth)) in rows {
        let state = FragState {
            stencil: Some(StencilState {
                func: Compare::Equal,
                reference,
                ops: [
                    StencilOp::Increment,
                    StencilOp::Decrement,
                    StencilOp::Invert,
                ],
                ..STENCIL
            }),
            depth: Some((comparison, write)),
            ..PLAIN
        };
        let after = Pixel {
            z: depth,
            s,
            ..STORED
        };
        let fragment = Frag { z, ..WHITE };
        assert_eq!(rt; tests(&state, fragment, STORED), (passes, after));
        let rgba = if passes { WHITE.rgba } else { STORED.rgba };
        assert_eq!(rt;
            pixel_step(&state, fragment, STORED),
            Pixel { rgba, ..after }
        );
    }
}

/// A fragment that fails the depth test at its own depth raises the stencil value, up to 255.
#[test]
fn depth_fail_raises_the_stencil_value(rt: HostRuntime) {
    let state = FragState {
        stencil: Some(StencilState {
            ops: [StencilOp::Keep, StencilOp::Increment, StencilOp::Keep],
            ..STENCIL
        }),
        depth: Some((Compare::Less, true)),
        ..PLAIN
    };
    for (s, want) in [(255, 255), (7, 8)] {
        let after = pixel_step(&state, WHITE, Pixel { s, ..STORED });
        assert_eq!(rt; after, Pixel { s: want, ..STORED });
    }
}

const FACTORS: [BlendFactor; 11] = [
    BlendFactor::Zero,
    BlendFactor::One,
    BlendFactor::SourceColor,
    BlendFactor::OneMinusSourceColor,
    BlendFactor::SourceAlpha,
    BlendFactor::OneMinusSourceAlpha,
    BlendFactor::DestinationAlpha,
    BlendFactor::OneMinusDestinationAlpha,
    BlendFactor::DestinationColor,
    BlendFactor::OneMinusDestinationColor,
    BlendFactor::SourceAlphaSaturate,
];

/// Pairs of colours, of the source and of the destination.
const COLORS: [([u8; 4], [u8; 4]); 3] = [
    ([255, 0, 0, 128], [0, 0, 255, 255]),
    ([200, 100, 50, 180], [30, 160, 240, 90]),
    ([7, 255, 129, 1], [254, 128, 3, 254]),
];

/// R G B A of the three pairs of colours: a row for each factor of the destination, under that of the source.
const BLENDED: [u32; 363] = [
    // Zero
    0x00000000, 0x00000000, 0x00000000, 0x0000ffff, 0x1ea0f05a, 0xfe8003fe, 0x00000080, 0x183f2f40,
    0x07800201, 0x0000ff7f, 0x0661c11a, 0xf70001fd, 0x00008080, 0x1571a940, 0x01010001, 0x00007f7f,
    0x092f471a, 0xfd7f03fd, 0x0000ffff, 0x0b385520, 0xfd7f03fd, 0x00000000, 0x13689b3a, 0x01010001,
    0x0000ffff, 0x0464e220, 0xfd4000fd, 0x00000000, 0x1a3c0e3a, 0x01400301, 0x000000ff, 0x13689b5a,
    0x010100fe,
    // One
    0xff000080, 0xc86432b4, 0x07ff8101, 0xff00ffff, 0xe6ffffff, 0xffff84ff, 0xff0000ff, 0xe0a361f4,
    0x0eff8302, 0xff00ffff, 0xcec5f3ce, 0xfeff82fe, 0xff0080ff, 0xddd5dbf4, 0x08ff8102, 0xff007fff,
    0xd19379ce, 0xffff84fe, 0xff00ffff, 0xd39c87d4, 0xffff84fe, 0xff000080, 0xdbcccdee, 0x08ff8102,
    0xff00ffff, 0xccc8ffd4, 0xffff81fe, 0xff000080, 0xe2a040ee, 0x08ff8402, 0xff0000ff, 0xdbcccdff,
    0x08ff81ff,
    // SourceColor
    0xff000040, 0x9d270a7f, 0x00ff4100, 0xff00ffff, 0xbbc7fad9, 0xfeff44fe, 0xff0000c0, 0xb46639bf,
    0x07ff4301, 0xff00ffbf, 0xa388cb9a, 0xf7ff43fd, 0xff0080c0, 0xb298b3bf, 0x01ff4101, 0xff007fbf,
    0xa656509a, 0xfdff44fd, 0xff00ffff, 0xa7605f9f, 0xfdff44fd, 0xff000040, 0xb08fa5b9, 0x01ff4101,
    0xff00ffff, 0xa08cec9f, 0xfdff41fd, 0xff000040, 0xb76318b9, 0x01ff4401, 0xff0000ff, 0xb08fa5d9,
    0x01ff41fe,
    // OneMinusSourceColor
    0x00000040, 0x2b3d2835, 0x07004001, 0x0000ffff, 0x49ddff8f, 0xff8043ff, 0x000000c0, 0x437c5774,
    0x0e804102, 0x0000ffbf, 0x329ee94f, 0xfe0041fe, 0x000080c0, 0x40aed274, 0x08014002, 0x00007fbf,
    0x346c6f4f, 0xff7f43fe, 0x0000ffff, 0x36757d55, 0xff7f43fe, 0x00000040, 0x3fa4c36f, 0x08014002,
    0x0000ffff, 0x2fa1ff55, 0xff4040fe, 0x00000040, 0x4678366f, 0x08404302, 0x000000ff, 0x3fa4c38f,
    0x080140ff,
    // SourceAlpha
    0x80000040, 0x8d47237f, 0x00010100, 0x8000ffff, 0xabe7ffd9, 0xfe8104fe, 0x800000c0, 0xa58552bf,
    0x07810201, 0x8000ffbf, 0x94a8e49a, 0xf70102fd, 0x800080c0, 0xa2b8cdbf, 0x01020101, 0x80007fbf,
    0x96766a9a, 0xfd8003fd, 0x8000ffff, 0x987f789f, 0xfd8003fd, 0x80000040, 0xa1aebfb9, 0x01020101,
    0x8000ffff, 0x91abff9f, 0xfd4101fd, 0x80000040, 0xa88231b9, 0x01410301, 0x800000ff, 0xa1aebfd9,
    0x010201fe,
    // OneMinusSourceAlpha
    0x7f000040, 0x3b1d0f35, 0x07fe8001, 0x7f00ffff, 0x59bdff8f, 0xffff83ff, 0x7f0000c0, 0x525c3e74,
    0x0eff8202, 0x7f00ffbf, 0x417fd04f, 0xfefe82fe, 0x7f0080c0, 0x508eb874, 0x08ff8102, 0x7f007fbf,
    0x444c554f, 0xffff83fe, 0x7f00ffff, 0x45566355, 0xffff83fe, 0x7f000040, 0x4e85aa6f, 0x08ff8102,
    0x7f00ffff, 0x3e82f155, 0xffff81fe, 0x7f000040, 0x55591d6f, 0x08ff8302, 0x7f0000ff, 0x4e85aa8f,
    0x08ff81ff,
    // DestinationAlpha
    0xff000080, 0x47231240, 0x07fe8001, 0xff00ffff, 0x65c3ff9a, 0xffff83ff, 0xff0000ff, 0x5e62417f,
    0x0eff8202, 0xff00ffff, 0x4d85d35a, 0xfefe82fe, 0xff0080ff, 0x5c94bb7f, 0x08ff8102, 0xff007fff,
    0x4f52585a, 0xffff83fe, 0xff00ffff, 0x515c665f, 0xffff83fe, 0xff000080, 0x5a8bad7a, 0x08ff8102,
    0xff00ffff, 0x4a88f45f, 0xffff81fe, 0xff000080, 0x615f207a, 0x08ff8302, 0xff0000ff, 0x5a8bad9a,
    0x08ff81ff,
    // OneMinusDestinationAlpha
    0x00000000, 0x81412074, 0x00010100, 0x0000ffff, 0x9fe1ffce, 0xfe8104fe, 0x00000080, 0x997f4fb4,
    0x07810201, 0x0000ff7f, 0x88a2e18f, 0xf70102fd, 0x00008080, 0x97b2cab4, 0x01020101, 0x00007f7f,
    0x8a70678f, 0xfd8003fd, 0x0000ffff, 0x8c797594, 0xfd8003fd, 0x00000000, 0x95a8bcaf, 0x01020101,
    0x0000ffff, 0x85a5ff94, 0xfd4101fd, 0x00000000, 0x9c7c2eaf, 0x01410301, 0x000000ff, 0x95a8bcce,
    0x010201fe,
    // DestinationColor
    0x00000080, 0x183f2f40, 0x07800201, 0x0000ffff, 0x36dfff9a, 0xffff05ff, 0x000000ff, 0x2f7d5e7f,
    0x0eff0302, 0x0000ffff, 0x1ea0f05a, 0xfe8003fe, 0x000080ff, 0x2db0d87f, 0x08810202, 0x00007fff,
    0x206e765a, 0xffff05fe, 0x0000ffff, 0x2277845f, 0xffff05fe, 0x00000080, 0x2ba6ca7a, 0x08810202,
    0x0000ffff, 0x1ba3ff5f, 0xffc002fe, 0x00000080, 0x327a3d7a, 0x08c00402, 0x000000ff, 0x2ba6ca9a,
    0x088102ff,
    // OneMinusDestinationColor
    0xff000000, 0xb0250374, 0x007f7f00, 0xff00ffff, 0xcec5f3ce, 0xfeff82fe, 0xff000080, 0xc86432b4,
    0x07ff8101, 0xff00ff7f, 0xb787c48f, 0xf77f81fd, 0xff008080, 0xc696acb4, 0x01807f01, 0xff007f7f,
    0xb9544a8f, 0xfdfe82fd, 0xff00ffff, 0xbb5e5894, 0xfdfe82fd, 0xff000000, 0xc48d9eaf, 0x01807f01,
    0xff00ffff, 0xb48ae594, 0xfdbf80fd, 0xff000000, 0xcb6111af, 0x01bf8201, 0xff0000ff, 0xc48d9ece,
    0x01807ffe,
    // SourceAlphaSaturate
    0x00000080, 0x814120b4, 0x00010101, 0x0000ffff, 0x9fe1ffff, 0xfe8104ff, 0x000000ff, 0x997f4ff4,
    0x07810202, 0x0000ffff, 0x88a2e1ce, 0xf70102fe, 0x000080ff, 0x97b2caf4, 0x01020102, 0x00007fff,
    0x8a7067ce, 0xfd8003fe, 0x0000ffff, 0x8c7975d4, 0xfd8003fe, 0x00000080, 0x95a8bcee, 0x01020102,
    0x0000ffff, 0x85a5ffd4, 0xfd4101fe, 0x00000080, 0x9c7c2eee, 0x01410302, 0x000000ff, 0x95a8bcff,
    0x010201ff,
];

#[test]
fn pairs_of_blend_factors(rt: HostRuntime) {
    let mut wanted = BLENDED.iter();
    for source in FACTORS {
        for destination in FACTORS {
            let state = FragState {
                blend: Some((source, destination)),
                ..PLAIN
            };
            for (rgba, under) in COLORS {
                let got = u32::from_be_bytes(blend(&state, rgba, under));
                let want = wanted.next().copied();
                assert_eq!(rt; Some(got), want, "{source:?}, {destination:?}");
            }
        }
    }
}

/// What the operations make of the bits 1100 and 1010, twice.
const LOGIC: [(LogicOp, u8); 16] = [
    (LogicOp::Clear, 0x00),
    (LogicOp::And, 0x88),
    (LogicOp::AndReverse, 0x44),
    (LogicOp::Copy, 0xcc),
    (LogicOp::AndInverted, 0x22),
    (LogicOp::NoOp, 0xaa),
    (LogicOp::Xor, 0x66),
    (LogicOp::Or, 0xee),
    (LogicOp::Nor, 0x11),
    (LogicOp::Equivalent, 0x99),
    (LogicOp::Invert, 0x55),
    (LogicOp::OrReverse, 0xdd),
    (LogicOp::CopyInverted, 0x33),
    (LogicOp::OrInverted, 0xbb),
    (LogicOp::Nand, 0x77),
    (LogicOp::Set, 0xff),
];

/// Each operation under four colour masks; that there are blend factors beside it changes nothing.
#[test]
fn logical_operations_under_color_masks(rt: HostRuntime) {
    let masks = [
        [true, true, true, true],
        [false, false, false, false],
        [true, false, false, true],
        [false, true, true, false],
    ];
    for (operation, byte) in LOGIC {
        for mask in masks {
            let state = FragState {
                blend: Some((BlendFactor::One, BlendFactor::One)),
                logic: Some(operation),
                mask,
                ..PLAIN
            };
            let got = blend(&state, [0xcc; 4], [0xaa; 4]);
            for (component, written) in got.into_iter().zip(mask) {
                let want = if written { byte } else { 0xaa };
                assert_eq!(rt; component, want, "{operation:?}");
            }
        }
    }
}
