//! The example: a function that does nothing, and whose contract states it.
ghost use Rattle.st_standing.specs.Standing.{StandsFor};
ghost use Rattle.st_standing_example.specs.Ada.{ada_pages, ada_state};

use st_chain::Chain;
use st_new_database::laws_of_new_databases;
use st_schema::laws_of_schemas;
use st_store::Store;

/// The pages stand for the state, in stores that are chains of pages.
pub fn example_stands()
    ensures { StandsFor ⟦<Chain as Store>⟧.holds ada_pages ada_state }
{
    laws_of_schemas();
    laws_of_new_databases();
}
