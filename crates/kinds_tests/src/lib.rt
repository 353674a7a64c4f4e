// What kinds push and read, byte for byte, and how vectors and strings lie in a store.
#![tactic(auto)]

#[cfg(test)]
mod tests {
    use font::kern::Kern;
    use kinds::Kind;
    use kinds::primitives::WIPOffset;
    use space::Space;
    use store::allocator::{Allocator, Contiguous};
    use store::doubling::{Doubling, SliceFull};
    use store::still::Still;
    use vectors::string::create_byte_string;
    use vectors::vector::{create_vector, get};
    use wire::refusal::Refusal;

    // A value's bytes in front of `used`, from `from` on, over four bytes of FF.
    fn pushed<T: Kind>(x: &T, used: usize, from: usize) -> [u8; 4] {
        let mut dst = [0xff; 4];
        x.push(&mut dst, used, from);
        dst
    }

    #[test]
    fn numbers_push_and_read(rt: HostRuntime) {
        assert!(rt; pushed(&600u16, 0, 0) == [0x58, 2, 0xff, 0xff]);
        assert!(rt; pushed(&-2i16, 0, 1) == [0xff, 0xff, 0xff, 0xff]);
        assert!(rt; pushed(&0x0807_0605_0403_0201u64, 0, 4) == [5, 6, 7, 8]);
        assert!(rt; pushed(&600u16, 0, usize::MAX) == [0xff; 4]);
        assert!(rt; i16::follow(&[1, 0xfe, 0xff], 1) == Some(-2));
        assert!(rt; u16::follow(&[1, 2], 1) == None);
        assert!(rt; u16::follow(&[1, 2], usize::MAX) == None);
    }

    #[test]
    fn floats_are_numbers(rt: HostRuntime) {
        let nan = 0.0f32 / 0.0;
        assert!(rt; pushed(&nan, 0, 0) == [0, 0, 0xc0, 0x7f]);
        assert!(rt; pushed(&(0.0f64 / 0.0), 0, 4) == [0, 0, 0xf8, 0x7f]);
        assert!(rt; !nan.equals(&nan) && (-0.0f32).equals(&0.0));
        assert!(rt; pushed(&-0.0f32, 0, 0) == [0, 0, 0, 0x80]);
        assert!(rt; pushed(&f64::MIN_POSITIVE, 0, 4) == [0, 0, 0x10, 0]);
    }

    #[test]
    fn offsets_are_distances(rt: HostRuntime) {
        let o = WIPOffset::<u8>::new(8);
        assert!(rt; pushed(&o, 8, 0) == [4, 0, 0, 0]);
        assert!(rt; pushed(&o, 0, 0) == [0; 4]);
        assert!(rt; pushed(&o, usize::MAX, 0) == [0xfb, 0xff, 0xff, 0xff]);
        assert!(rt; WIPOffset::<u8>::follow(&[4, 0, 0, 0, 9], 0) == Some(4));
        assert!(rt; WIPOffset::<u8>::follow(&[5, 0, 0, 0, 9], 0) == None);
        assert!(rt; WIPOffset::<u8>::follow(&[0xff; 4], 0) == None);
    }

    #[test]
    fn vectors_and_strings_lie_as_the_format_says(rt: HostRuntime) {
        let mut space = Space::new(Still::new());
        assert!(rt; create_byte_string(&mut space, b"fi").is_ok());
        assert!(rt; space.as_slice() == [2, 0, 0, 0, 0x66, 0x69, 0, 0].as_slice());
        let kern = Kern {
            left: 3,
            right: 5,
            value: -10,
        };
        assert!(rt; create_vector(&mut space, &[kern]).is_ok());
        assert!(rt;
            space.as_slice()
                == [
                    1, 0, 0, 0, 3, 0, 5, 0, 0xf6, 0xff, 0, 0, 2, 0, 0, 0, 0x66, 0x69, 0, 0,
                ]
                .as_slice()
        );
        assert!(rt; get::<Kern>(space.as_slice(), 4, 1, 0) == Some(kern));
        assert!(rt; get::<Kern>(space.as_slice(), 4, 1, 1) == None);
        assert!(rt; get::<Kern>(space.as_slice(), usize::MAX, 9, 8) == None);
    }

    #[test]
    fn refusals_leave_the_used_bytes(rt: HostRuntime) {
        let mut bytes = [0xaa; 20];
        let mut space = Space::new(Doubling::new(&mut bytes));
        assert!(rt; create_byte_string(&mut space, b"") == Ok(8));
        let far = [WIPOffset::<u8>::new(8), WIPOffset::<u8>::new(9)];
        assert!(rt; create_vector(&mut space, &far) == Err(Refusal::Offset));
        assert!(rt; create_vector(&mut space, &[0u64; 2]) == Err(Refusal::Store(SliceFull)));
        assert!(rt; space.as_slice() == [0; 8].as_slice());
        assert!(rt; space.allocator().as_slice().len() == 20);
        assert!(rt; create_vector(&mut space, &[1u64]) == Ok(20));
    }
}
