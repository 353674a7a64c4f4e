// Edge cases of the stores and of space in them, run.
#![tactic(auto)]

#[cfg(test)]
mod tests {
    use space::Space;
    use std::process::Abort;
    use std::test::Fail;
    use store::allocator::{Allocator, Contiguous};
    use store::doubling::{Doubling, SliceFull};
    use store::quota::{Quota, QuotaError};
    use store::still::Still;

    // Reads and writes at the end of a store, past it, and at the largest place.
    fn edges<S: Allocator>(store: &mut S, len: usize) -> bool {
        store.len() == len
            && store.put(len, &[])
            && !store.put(len, &[5])
            && !store.put(usize::MAX, &[5])
            && store.at(len) == None
            && (len == 0 || store.put(len - 1, &[6]) && store.at(len - 1) == Some(6))
    }

    // Grows a slice of `limit` bytes under a quota until one of the two refuses.
    fn grows(
        rt: &impl Abort,
        limit: usize,
        quota: usize,
        lens: &[usize],
        refusal: QuotaError<SliceFull>,
    ) -> Result<(), Fail> {
        let mut memory = [7u8; 8];
        assert!(rt; limit <= 8);
        let mut store = Quota::new(Doubling::new(&mut memory[0..limit]), quota);
        assert!(rt; edges(&mut store, 0));
        for len in lens {
            assert!(rt; store.grow_downwards().is_ok());
            assert!(rt; edges(&mut store, *len));
        }
        assert_eq!(rt; store.grow_downwards(), Err(refusal));
        Ok(())
    }

    #[test]
    fn growth(rt: HostRuntime) -> Result<(), Fail> {
        let full = QuotaError::Store(SliceFull);
        grows(&rt, 0, 9, &[], full)?;
        grows(&rt, 1, 9, &[1], full)?;
        grows(&rt, 5, 9, &[1, 2, 4, 5], full)?;
        grows(&rt, 4, 4, &[1, 2, 4], QuotaError::Reached)?;
        grows(&rt, 8, 3, &[1, 2, 3], QuotaError::Reached)?;
        grows(&rt, 8, 0, &[], QuotaError::Reached)
    }

    #[test]
    fn still(rt: HostRuntime) {
        let mut store = Still::new();
        for i in 0..64usize {
            assert!(rt; edges(&mut store, 256 * i));
            assert!(rt; store.grow_downwards().is_ok());
        }
        assert!(rt; store.grow_downwards().is_err());
        assert!(rt; edges(&mut store, 16384));
    }

    // What stands after bytes are prepended, or refused.
    fn prepends(
        space: &mut Space<Doubling>,
        bytes: &[u8],
        fits: bool,
        used: usize,
        len: usize,
    ) -> bool {
        space.make_space(bytes.len()).is_ok() == fits
            && space.prepend(bytes).is_ok() == fits
            && space.used() == used
            && space.allocator().len() == len
    }

    #[test]
    fn spaces(rt: HostRuntime) {
        let mut memory = [7u8; 6];
        let mut space = Space::new(Doubling::new(&mut memory));
        assert!(rt; prepends(&mut space, &[], true, 0, 0));
        assert!(rt; prepends(&mut space, &[1, 2], true, 2, 2));
        assert!(rt; prepends(&mut space, &[3, 4, 5, 6, 7], false, 2, 6));
        assert!(rt; prepends(&mut space, &[3, 4, 5, 6], true, 6, 6));
        assert!(rt; space.as_slice() == [3, 4, 5, 6, 1, 2].as_slice());
    }

    #[test]
    fn releases(rt: HostRuntime) {
        let mut memory = [7u8; 4];
        let mut space = Space::new(Doubling::new(&mut memory));
        assert!(rt; space.prepend(&[1, 2, 3]).is_ok());
        space.release(2);
        assert!(rt; space.put_zeros(1) && space.put_front(&[8]));
        assert!(rt; space.as_slice() == [8, 0, 3].as_slice());
        space.release(usize::MAX);
        assert!(rt; space.into_allocator().as_slice() == [0; 4].as_slice());
    }
}
