//! Laws of the definitions: a function that does nothing, and whose contract states them.
ghost use Rattle.std.specs.Prelude.{◌≡◌};
ghost use Rattle.st_pages.specs.Attempt.{Array};
ghost use Rattle.st_state.specs.State.{State};
ghost use Rattle.st_standing.specs.Standing.{NearlyStandsFor};

use st_catalog::laws_of_catalogs;
use st_rows::laws_of_rows;
use st_store::Store;

/// Pages nearly stand for one state at most, whatever the form of their stores.
pub fn laws_of_standing<S: Store>()
    ensures { (array : Array) (s t : State) → NearlyStandsFor S.holds array s → NearlyStandsFor S.holds array t → s ≡ t }
{
    laws_of_catalogs();
    laws_of_rows();
}
