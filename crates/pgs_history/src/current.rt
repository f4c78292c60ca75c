/// The scrub of a group that reserves or runs.
#[derive(Clone, Copy, Debug, PartialEq, Drop)]
pub struct Current {
    /// Its number.
    pub serial: u64,
    /// While it reserves, the place in the acting list of the OSD at which it claims next. None where it runs.
    pub claims: Option<u64>,
}
