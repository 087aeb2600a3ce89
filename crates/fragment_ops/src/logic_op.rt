ghost use Rattle.std.specs.Prelude.{◌≡◌};
ghost use Rattle.gl_records.specs.LogicOp.{operated as operated_of, operated_color};

use gl_tokens::LogicOp;

/// The logical operation on the colour of a fragment and the one that is there (OpenGL ES 1.1.12, 4.1.9).
pub fn operated(operation: LogicOp, source: [u8; 4], destination: [u8; 4]) -> [u8; 4]
    ensures { result ≡ operated_color operation source destination }
{
    [
        component(operation, source[0], destination[0]),
        component(operation, source[1], destination[1]),
        component(operation, source[2], destination[2]),
        component(operation, source[3], destination[3]),
    ]
}

fn component(operation: LogicOp, source: u8, destination: u8) -> u8
    ensures { result ≡ operated_of operation source destination }
{
    match operation {
        LogicOp::Clear => 0,
        LogicOp::And => source & destination,
        LogicOp::AndReverse => source & (destination ^ 0xff),
        LogicOp::Copy => source,
        LogicOp::AndInverted => (source ^ 0xff) & destination,
        LogicOp::NoOp => destination,
        LogicOp::Xor => source ^ destination,
        LogicOp::Or => source | destination,
        LogicOp::Nor => (source | destination) ^ 0xff,
        LogicOp::Equivalent => (source ^ destination) ^ 0xff,
        LogicOp::Invert => destination ^ 0xff,
        LogicOp::OrReverse => source | (destination ^ 0xff),
        LogicOp::CopyInverted => source ^ 0xff,
        LogicOp::OrInverted => (source ^ 0xff) | destination,
        LogicOp::Nand => (source & destination) ^ 0xff,
        LogicOp::Set => 255,
    }
}
