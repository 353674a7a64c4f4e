// Where a value of the open table lies: its offset from the end of the used bytes, and its slot.
#[derive(Clone, Copy, Default)]
pub struct FieldLoc {
    pub off: u32,
    pub id: u16,
}
