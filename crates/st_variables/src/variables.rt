ghost use Rattle.std.specs.Prelude.{◌≡◌, [], map, IfOk, OnOk, OnErr, IsTrue};
ghost use Rattle.st_values.specs.Names.{all_differ};
ghost use Rattle.st_query.specs.Terms.{variable_value, bind};

use st_query::{Variable, bind, variable_value};
use st_text::Duplicate;
use st_values::{Letters, Value};
use std::alloc::{AllocError, Global};
use std::marker::Model;

/// The variables of a transaction: names bound to values, each name once.
#[derive(Debug, Drop)]
pub struct Variables {
    items: Vec<Variable>,
}

impl Model for Variables {
    ghost use Rattle.std.specs.Prelude.{List, map, IsTrue};
    ghost use Rattle.st_values.specs.Names.{all_differ};
    ghost use Rattle.st_query.specs.declared.term.Variable.{Variable};

    ghost Value = { List Variable };

    ghost view = { λ it. it.items.items };

    ghost invariant = { λ it. IsTrue (all_differ (map (λ v. v.name) it.items.items)) };
}

impl Variables {
    /// No variables. It takes no memory yet.
    pub fn new(alloc: Global) -> Variables
        ensures { result ≡ [] }
    {
        Variables {
            items: Vec::new(alloc),
        }
    }

    /// The variables, whose names differ.
    pub fn as_slice(&self) -> &[Variable]
        ensures value { result.now ≡ self.now }
        ensures once { IsTrue (all_differ (map (λ v. v.name) self.now)) }
    {
        self.items.as_slice()
    }

    /// A copy of what a name is bound to; null where it is not bound. `AllocError` where there is no memory.
    pub fn value(&self, alloc: Global, name: &[u8]) -> Result<Value, AllocError>
        ensures { IfOk result (λ value. value ≡ variable_value self.now name.now) }
    {
        variable_value(alloc, self.items.as_slice(), name)
    }

    /// Binds a name to a value, anew where it was bound. `AllocError` where there is no memory; the variables are then
    /// as they were.
    pub fn bind(&mut self, alloc: Global, name: &Letters, value: Value) -> Result<(), AllocError>
        ensures ok { OnOk result (self.new ≡ bind name.now value self.old) }
        ensures err { OnErr result (self.new ≡ self.old) }
    {
        bind(alloc, &mut self.items, name, value)
    }

    /// Forgets all variables. It takes no memory.
    pub fn clear(&mut self)
        ensures { self.new ≡ [] }
    {
        self.items.clear();
    }
}

impl Duplicate for Variables {
    fn copy(&self, alloc: Global) -> Result<Variables, AllocError> {
        let mut items = Vec::new(alloc);
        for variable in &self.items {
            items.push(variable.copy(alloc)?)?;
        }
        Ok(Variables { items })
    }
}
