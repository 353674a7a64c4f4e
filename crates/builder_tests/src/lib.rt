// The builder's worked examples, byte for byte, through the real code.
#![tactic(auto)]

#[cfg(test)]
mod tests {
    use builder::builder::FlatBufferBuilder;
    use kinds::Kind;
    use std::test::Fail;
    use store::allocator::{Allocator, Contiguous};
    use store::doubling::Doubling;
    use store::still::Still;
    use wire::refusal::Refusal;

    // A table with u16 600 at slot 4.
    fn units<S: Contiguous>(b: &mut FlatBufferBuilder<S>) -> Result<u32, Refusal<S::Error>> {
        let start = b.start_table()?;
        b.push_slot(4, &600u16, &0)?;
        b.end_table(start)
    }

    #[test]
    fn an_empty_table(rt: HostRuntime) -> Result<(), Fail> {
        let mut bytes = [0; 12];
        let mut b = FlatBufferBuilder::new_in(Doubling::new(&mut bytes));
        let start = b.start_table()?;
        let table = b.end_table(start)?;
        b.finish_minimal(table)?;
        assert!(rt; b.finished_data()? == [8, 0, 0, 0, 4, 0, 4, 0, 4, 0, 0, 0].as_slice());
        Ok(())
    }

    #[test]
    fn one_field(rt: HostRuntime) -> Result<(), Fail> {
        let mut b = FlatBufferBuilder::new_in(Still::new());
        let table = units(&mut b)?;
        b.finish(table, None)?;
        assert!(rt;
            b.finished_data()?
                == [
                    12, 0, 0, 0, 0, 0, 6, 0, 8, 0, 6, 0, 6, 0, 0, 0, 0, 0, 0x58, 2,
                ]
                .as_slice()
        );
        b.reset();
        let table = units(&mut b)?;
        b.finish_size_prefixed(table, None)?;
        let data = b.finished_data()?;
        assert!(rt; data.len() == 24 && data[0..4] == [20, 0, 0, 0]);
        Ok(())
    }

    #[test]
    fn equal_vtables_are_shared(rt: HostRuntime) -> Result<(), Fail> {
        let mut b = FlatBufferBuilder::new_in(Still::new());
        let _ = units(&mut b)?;
        let _ = units(&mut b)?;
        let third = units(&mut b)?;
        assert!(rt; b.num_written_vtables() == 2);
        let used = b.unfinished_data();
        assert!(rt; used.len() == third as usize && used.len() >= 4);
        assert!(rt; used[0..4] == [0xfa, 0xff, 0xff, 0xff]);
        Ok(())
    }

    #[test]
    fn defaults_and_misuse(rt: HostRuntime) -> Result<(), Fail> {
        let mut b = FlatBufferBuilder::new_in(Still::new());
        let start = b.start_table()?;
        b.push_slot(4, &-0.0f32, &0.0)?;
        b.push_slot_always(6, &1u32)?;
        b.push_slot_always(6, &2u32)?;
        let table = b.end_table(start)?;
        assert!(rt; b.required(table, 6).is_ok() && b.required(table, 4).is_err());
        assert!(rt; b.push_slot_always(6, &1u32).is_err() && b.end_table(start).is_err());
        assert!(rt; b.create_string(&[0xff]).is_err() && b.finish(table, Some(b"abc")).is_err());
        Ok(())
    }
}
