use crate::declarations::Declarations;
use pgs_lines::Step;
use sqlite_items::Items;

/// A script of steps, as far as it was said.
#[derive(Drop)]
pub struct StepScript {
    /// What it declares.
    pub declared: Declarations,
    /// Its steps, in order.
    pub steps: Items<Step>,
    /// Whether its line `end` was said.
    pub over: bool,
}
