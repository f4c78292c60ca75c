/// The scrub that holds a slot.
#[derive(Clone, Copy, Debug, PartialEq, Eq, Drop)]
pub struct Holder {
    /// Its group.
    pub group: u32,
    /// Its number among the scrubs of the group.
    pub serial: u64,
}
