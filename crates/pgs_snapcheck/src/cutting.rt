ghost use Rattle.std.specs.Prelude.{◌≡◌, [], length, MatchOption};
ghost use Rattle.std.specs.List.{take_while};
ghost use Rattle.pgs_snapcheck.specs.Check.{AreAscending};
ghost use Rattle.pgs_snapcheck.specs.Runs.{is_beside, IsFirstRun};

use crate::view::View;

/// The positions of the first family, and those behind them.
pub fn first_run(views: &[View]) -> Option<(&[View], &[View])>
    requires { AreAscending views.now }
    ensures { MatchOption result (views.now ≡ []) (λ parts. IsFirstRun views.now parts.0.now parts.1.now) }
{
    match views.split_first() {
        Some((first, _)) => Some(views.split_at(length_of_run(first, views))),
        None => None,
    }
}

// How many positions from the front on are of a view's family.
fn length_of_run(first: &View, views: &[View]) -> usize
    ensures { result ≡ length (take_while (is_beside first.now) views.now) }
{
    views
        .iter()
        .take_while(|view| first.id.family == view.id.family)
        .count()
}
