//! A trace, from bytes to records.
//!
//! `specs/Trace.antt` says what every list of bytes is: a malformed header with its cause, or a size, a list
//! of records and an ending, which is End or the first condition that makes the trace malformed. [`Reader`]
//! takes the bytes of a source part by part and answers exactly that, record by record. The bytes that a
//! command brings along are read into memory of their own, of the allocator that `start` was given. [`spell`]
//! goes the other way: a record as it is written, which reads back as the record.
//!
//! ```text
//! let (mut reader, size) = Reader::start(alloc, &mut source)?;
//! while let rec = reader.next(&mut source)? { .. } // Rec::End is the last
//! ```
#![tactic(auto)]

mod cause;
mod fill;
mod laws;
mod reader;
mod record;
mod shape;
mod spelled;
mod stage;
mod table;
mod words;

pub use cause::{Cause, ReadEnd};
pub use laws::{one_outcome, spelling_reads_back};
pub use reader::Reader;
pub use spelled::{Spelled, spell};

#[cfg(test)]
mod tests {
    use super::*;
    use gl_records::{Bytes, Rec, Words};
    use std::test::Fail;

    #[test]
    fn a_vertex_pointer_is_five_words(rt: HostRuntime) {
        let rec = Rec::VertexPointer {
            size: 3,
            kind: 0x140C,
            stride: -1,
            region: 2,
            offset: 16,
        };
        let spelled = spell(&rec);
        assert_eq!(rt; spelled.opcode(), 0x11);
        assert_eq!(rt; spelled.words(), [3, 0x140C, 0xFFFF_FFFF, 2, 16].as_slice());
        let (list, bytes) = spelled.piece();
        assert_eq!(rt; list.len(), 0);
        assert_eq!(rt; bytes.len(), 0);
    }

    #[test]
    fn pointers_and_draws_in_the_order_of_their_words(rt: HostRuntime) {
        let (size, kind, stride, region, offset) = (2, 3, 4, 5, 6);
        let normals = Rec::NormalPointer {
            kind,
            stride,
            region,
            offset,
        };
        let colors = Rec::ColorPointer {
            size,
            kind,
            stride,
            region,
            offset,
        };
        let coordinates = Rec::TexCoordPointer {
            size,
            kind,
            stride,
            region,
            offset,
        };
        let elements = Rec::DrawElements {
            mode: 1,
            count: -2,
            kind,
            region,
            offset,
        };
        let table = [
            (normals, 0x12, [3, 4, 5, 6].as_slice()),
            (colors, 0x13, [2, 3, 4, 5, 6].as_slice()),
            (coordinates, 0x14, [2, 3, 4, 5, 6].as_slice()),
            (
                Rec::ClientActiveTexture { texture: 7 },
                0x17,
                [7].as_slice(),
            ),
            (elements, 0x1E, [1, 0xFFFF_FFFE, 3, 5, 6].as_slice()),
        ];
        for (rec, opcode, words) in &table {
            let spelled = spell(rec);
            assert_eq!(rt; spelled.opcode(), *opcode);
            assert_eq!(rt; spelled.words(), *words);
        }
    }

    #[test]
    fn a_color_of_bytes_is_one_word_and_red_its_lowest_byte(rt: HostRuntime) {
        let rec = Rec::Color4ub {
            red: 1,
            green: 2,
            blue: 3,
            alpha: 4,
        };
        let spelled = spell(&rec);
        assert_eq!(rt; spelled.opcode(), 0x1A);
        assert_eq!(rt; spelled.words(), [0x0403_0201].as_slice());
    }

    #[test]
    fn client_bytes_are_a_word_and_the_bytes(rt: HostRuntime) -> Result<(), Fail> {
        let rec = Rec::ClientBytes {
            region: 5,
            piece: Bytes::new(vec![in rt.alloc(); 1, 2, 3]?),
        };
        let spelled = spell(&rec);
        assert_eq!(rt; spelled.opcode(), 0x10);
        assert_eq!(rt; spelled.words(), [5].as_slice());
        let (list, bytes) = spelled.piece();
        assert_eq!(rt; list.len(), 0);
        assert_eq!(rt; bytes, [1, 2, 3].as_slice());
        Ok(())
    }

    #[test]
    fn names_are_words_behind_no_others(rt: HostRuntime) -> Result<(), Fail> {
        let rec = Rec::DeleteBuffers {
            names: Words::new(vec![in rt.alloc(); 7, 0x0102_0304]?),
        };
        let spelled = spell(&rec);
        assert_eq!(rt; spelled.opcode(), 0x21);
        assert_eq!(rt; spelled.words().len(), 0);
        let (list, bytes) = spelled.piece();
        assert_eq!(rt; list, [7, 0x0102_0304].as_slice());
        assert_eq!(rt; bytes.len(), 0);
        Ok(())
    }

    #[test]
    fn commands_of_textures_in_the_order_of_their_words(rt: HostRuntime) {
        let table = [
            (Rec::IsTexture { name: 9 }, 0x09, [9].as_slice()),
            (
                Rec::GenTextures { count: -1 },
                0x70,
                [0xFFFF_FFFF].as_slice(),
            ),
            (
                Rec::BindTexture {
                    target: 0x0DE1,
                    name: 5,
                },
                0x72,
                [0x0DE1, 5].as_slice(),
            ),
            (
                Rec::TexParameterx {
                    target: 0x0DE1,
                    parameter: 0x2801,
                    value: 0x2702,
                },
                0x73,
                [0x0DE1, 0x2801, 0x2702].as_slice(),
            ),
        ];
        for (rec, opcode, words) in &table {
            let spelled = spell(rec);
            assert_eq!(rt; spelled.opcode(), *opcode);
            assert_eq!(rt; spelled.words(), *words);
        }
    }

    #[test]
    fn a_box_of_texels_is_eight_words_and_the_texels(rt: HostRuntime) -> Result<(), Fail> {
        let rec = Rec::TexSubImage2D {
            target: 0x0DE1,
            level: 1,
            x: 2,
            y: -3,
            width: 4,
            height: 8,
            format: 0x1908,
            kind: 0x8033,
            piece: Bytes::new(vec![in rt.alloc(); 7, 6]?),
        };
        let spelled = spell(&rec);
        assert_eq!(rt; spelled.opcode(), 0x75);
        assert_eq!(rt;
            spelled.words(),
            [0x0DE1, 1, 2, 0xFFFF_FFFD, 4, 8, 0x1908, 0x8033].as_slice()
        );
        let (list, bytes) = spelled.piece();
        assert_eq!(rt; list.len(), 0);
        assert_eq!(rt; bytes, [7, 6].as_slice());
        Ok(())
    }
}
