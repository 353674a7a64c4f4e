// A point of a glyph to which a mark is attached.
ghost use Rattle.font.specs.Laws.{anchor_law, anchor_plain};
ghost use Rattle.font.specs.Structs.{anchor};

use kinds::endian_scalar::EndianScalar;

#[derive(Clone, Copy, Debug, PartialEq, Eq)]
pub struct Anchor {
    pub x: i16,
    pub y: i16,
}

impl EndianScalar for Anchor {
    type Scalar = [u8; 4];

    ghost meaning = { anchor };

    ghost lawful = { anchor_law };

    ghost plain = { anchor_plain };

    fn alignment() -> usize {
        2
    }

    fn to_little_endian(self) -> [u8; 4] {
        let [x0, x1] = self.x.to_le_bytes();
        let [y0, y1] = self.y.to_le_bytes();
        [x0, x1, y0, y1]
    }

    fn from_little_endian(v: [u8; 4]) -> Anchor {
        let [x0, x1, y0, y1] = v;
        Anchor {
            x: i16::from_le_bytes([x0, x1]),
            y: i16::from_le_bytes([y0, y1]),
        }
    }
}
