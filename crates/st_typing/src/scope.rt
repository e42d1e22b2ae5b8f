//! The names that terms may use.
ghost use Rattle.std.specs.Prelude.{◌≡◌, find};
ghost use Rattle.std.specs.Str.{bytes_eq};
ghost use Rattle.st_query.specs.Kinds.{known, variable_typing};

use crate::kinds::value_sort;
use st_query::{Sort, Typing, Variable};

/// The names that terms may use.
#[derive(Drop)]
pub(crate) enum Scope<'a> {
    /// Outside of a query: these variables.
    Outside(&'a [Variable]),
    /// Inside a query: its own variable, which hides one of its name, and the others.
    Inside {
        /// The name of its own variable.
        var: &'a [u8],
        /// The position of the type of what that stands for.
        ty: u16,
        /// The variables outside of the query.
        variables: &'a [Variable],
    },
}

impl Scope<'_> {
    ghost use Rattle.st_typing.specs.Scope.{names_of, named_typing};

    /// What the variable with a name is; none where there is none.
    #[tactic(auto, unfolding(crate::specs::Scope::named_typing))]
    pub(crate) fn typing_of(&self, name: &[u8]) -> Option<Typing>
        ensures { result ≡ named_typing (names_of self.now) name.now }
    {
        match self {
            Scope::Outside(variables) => bound_typing(variables, name),
            Scope::Inside { var, ty, variables } => {
                if *var == name {
                    Some(Typing::One(Sort::Entity(*ty)))
                } else {
                    bound_typing(variables, name)
                }
            }
        }
    }
}

/// What a variable is by its present value; none where there is none of this name.
fn bound_typing(variables: &[Variable], name: &[u8]) -> Option<Typing>
    ensures { result ≡ variable_typing (find (λ k. bytes_eq k.name name.now) (known variables.now)) }
{
    for variable in variables {
        if variable.name.as_slice() == name {
            return Some(Typing::One(value_sort(&variable.value)));
        }
    }
    None
}
