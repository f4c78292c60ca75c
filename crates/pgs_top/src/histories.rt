use pgs_script::Declarations;
use pgs_world::World;

/// What happened: what the script declares, and its pool's world after all steps.
#[derive(Drop)]
pub struct Histories {
    /// The opening state.
    pub declared: Declarations,
    /// The pool's groups and their members, with all that was done. None where nothing ran, or no pool is declared.
    pub world: Option<World>,
}
