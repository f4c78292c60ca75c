/// A scrub that may hold slots, named by its group and its serial number there.
#[derive(Clone, Copy, Debug, PartialEq, Eq)]
pub struct Holder {
    pub group: u32,
    pub serial: u64,
}
