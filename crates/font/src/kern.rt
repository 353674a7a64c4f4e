// An adjustment of the space between two glyphs.
ghost use Rattle.font.specs.Laws.{kern_law, kern_plain};
ghost use Rattle.font.specs.Structs.{kern};

use kinds::endian_scalar::EndianScalar;

#[derive(Clone, Copy, Debug, PartialEq, Eq)]
pub struct Kern {
    pub left: u16,
    pub right: u16,
    pub value: i16,
}

impl EndianScalar for Kern {
    type Scalar = [u8; 6];

    ghost meaning = { kern };

    ghost lawful = { kern_law };

    ghost plain = { kern_plain };

    fn alignment() -> usize {
        2
    }

    fn to_little_endian(self) -> [u8; 6] {
        let [l0, l1] = self.left.to_le_bytes();
        let [r0, r1] = self.right.to_le_bytes();
        let [v0, v1] = self.value.to_le_bytes();
        [l0, l1, r0, r1, v0, v1]
    }

    fn from_little_endian(v: [u8; 6]) -> Kern {
        let [l0, l1, r0, r1, v0, v1] = v;
        Kern {
            left: u16::from_le_bytes([l0, l1]),
            right: u16::from_le_bytes([r0, r1]),
            value: i16::from_le_bytes([v0, v1]),
        }
    }
}
