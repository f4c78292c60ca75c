/// How many slots an OSD has.
#[derive(Clone, Copy, Debug, PartialEq, Eq)]
pub struct OsdSlots {
    pub osd: u32,
    pub slots: u8,
}
