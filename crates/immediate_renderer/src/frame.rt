//! A frame, as it is presented.
ghost use Rattle.std.specs.Prelude.{◌≡◌, ◌≢◌, ◌<◌, ◌≤◌, ◌*◌, [], Err, IfOk, get_or, length};
ghost use Rattle.gl_records.specs.Surface.{IsShaped, row_bytes, surface_bytes};
ghost use Rattle.outer_io.specs.Faults.{Rose};
ghost use Rattle.output_format.specs.Answer.{Puts};
ghost use Rattle.output_format.specs.Frames.{frame};

use gl_records::Size;
use outer_io::Sink;
use output_format::{Fault, frame_header, put};
use std::alloc::{AllocError, Global};
use whole_surface::Surface;

/// Puts a frame: its twelve bytes, and then row after row from the bottom. `size` is the surface's.
pub fn put_frame<F: Sink>(
    alloc: Global,
    frames: &mut F,
    index: u32,
    size: Size,
    surface: &Surface,
) -> Result<(), Fault>
    requires { IsShaped size surface.now }
    ensures frame { Puts result (F.held frames.old) (F.held frames.new) (frame index size surface.now) }
    ensures write_fault { result ≡ Err Fault.WriteFault → Rose (F.faults frames.old) (F.faults frames.new) }
    ensures no_read_fault { result ≢ Err Fault.ReadFault }
    ensures faults { F.faults frames.old ≤ F.faults frames.new }
{
    put(frames, &frame_header(index, size))?;
    put_rows(alloc, frames, size, surface)
}

fn put_rows<F: Sink>(
    alloc: Global,
    frames: &mut F,
    size: Size,
    surface: &Surface,
) -> Result<(), Fault>
    requires { IsShaped size surface.now }
    ensures rows { Puts result (F.held frames.old) (F.held frames.new) (surface_bytes surface.now) }
    ensures write_fault { result ≡ Err Fault.WriteFault → Rose (F.faults frames.old) (F.faults frames.new) }
    ensures no_read_fault { result ≢ Err Fault.ReadFault }
    ensures faults { F.faults frames.old ≤ F.faults frames.new }
{
    let mut bytes = row_buffer(alloc, size.w)?;
    for y in 0..size.h {
        read_row(surface, size, y, &mut bytes);
        put(frames, &bytes)?;
    }
    Ok(())
}

/// Room for the bytes of a row.
fn row_buffer(alloc: Global, width: u16) -> Result<Vec<u8>, AllocError>
    ensures { IfOk result (λ bytes. length bytes.items ≡ 4 * width) }
{
    let mut bytes = Vec::new(alloc);
    bytes.resize(4 * usize::from(width), 0)?;
    Ok(bytes)
}

/// Makes the bytes those of the row, R G B A for each pixel.
fn read_row(surface: &Surface, size: Size, y: u16, bytes: &mut Vec<u8>)
    requires shaped { IsShaped size surface.now }
    requires inside { y < size.h }
    requires room { length bytes.old.items ≡ 4 * size.w }
    ensures row { bytes.new.items ≡ row_bytes (get_or surface.now y []) }
    ensures room { length bytes.new.items ≡ 4 * size.w }
{
    surface.row(size, y, bytes.as_mut_slice());
}
