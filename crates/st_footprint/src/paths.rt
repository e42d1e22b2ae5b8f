//! What is noted of paths.
ghost use Rattle.std.specs.Prelude.{◌≡◌, flat_map, OnOk};
ghost use Rattle.st_lattice.specs.Called.{called};
ghost use Rattle.st_query.specs.Ways.{way};
ghost use Rattle.st_query.specs.Footprint.{feature_stores, whole_called, path_stores};
ghost use Rattle.st_footprint.specs.Noted.{noted};
ghost use Rattle.st_footprint.specs.Parts.{features_stores, wholes_called};
ghost use Rattle.st_footprint.specs.Terms.{targets};

use crate::Footprint;
use crate::notes::{note_cell, note_whole};
use st_lattice::{Called, Schema, StoreKind, store};
use st_query::Term;
use std::alloc::{AllocError, Global};

/// Notes a feature of a path: the cell of its attribute, and for an inverse that too.
fn note_feature(
    alloc: Global,
    schema: &Schema,
    feature: &[u8],
    into: &mut Footprint,
) -> Result<(), AllocError>
    ensures { OnOk result (into.new ≡ noted (feature_stores schema.now (called schema.now feature.now)) into.old) }
{
    match schema.called(feature) {
        Called::Nothing => Ok(()),
        Called::Own(attribute) => note_cell(alloc, schema, attribute, into),
        Called::Inverse(attribute) => {
            note_cell(alloc, schema, attribute, into)?;
            into.note(store(StoreKind::Inverse, attribute.number))
        }
    }
}

/// Notes the features of a path.
fn note_path(
    alloc: Global,
    schema: &Schema,
    term: &Term,
    into: &mut Footprint,
) -> Result<(), AllocError>
    ensures { OnOk result (into.new ≡ noted (features_stores schema.now (way term.now).features) into.old) }
{
    match term {
        Term::Literal(_) | Term::Variable(_) => Ok(()),
        Term::Path(feature, inner) => {
            note_feature(alloc, schema, feature.as_slice(), into)?;
            note_path(alloc, schema, inner.get(), into)
        }
    }
}

/// Notes the paths of terms.
pub(crate) fn note_paths(
    alloc: Global,
    schema: &Schema,
    terms: &[&Term],
    into: &mut Footprint,
) -> Result<(), AllocError>
    ensures { OnOk result (into.new ≡ noted (path_stores schema.now (targets terms.now)) into.old) }
{
    for term in terms {
        note_path(alloc, schema, term, into)?;
    }
    Ok(())
}

/// Notes all that changes with the value of what a name calls.
pub(crate) fn note_called(
    alloc: Global,
    schema: &Schema,
    feature: &[u8],
    into: &mut Footprint,
) -> Result<(), AllocError>
    ensures { OnOk result (into.new ≡ noted (whole_called schema.now (called schema.now feature.now)) into.old) }
{
    match schema.called(feature) {
        Called::Nothing => Ok(()),
        Called::Own(attribute) | Called::Inverse(attribute) => {
            note_whole(alloc, schema, attribute, into)
        }
    }
}

/// Notes all that has to do with the features of a query's term.
fn note_wholes(
    alloc: Global,
    schema: &Schema,
    term: &Term,
    into: &mut Footprint,
) -> Result<(), AllocError>
    ensures { OnOk result (into.new ≡ noted (wholes_called schema.now (way term.now).features) into.old) }
{
    match term {
        Term::Literal(_) | Term::Variable(_) => Ok(()),
        Term::Path(feature, inner) => {
            note_called(alloc, schema, feature.as_slice(), into)?;
            note_wholes(alloc, schema, inner.get(), into)
        }
    }
}

/// Notes all that has to do with the features of a query's terms.
pub(crate) fn note_all_wholes(
    alloc: Global,
    schema: &Schema,
    terms: &[&Term],
    into: &mut Footprint,
) -> Result<(), AllocError>
    ensures { OnOk result (into.new ≡ noted (flat_map (λ term. wholes_called schema.now (way term).features) (targets terms.now)) into.old) }
{
    for term in terms {
        note_wholes(alloc, schema, term, into)?;
    }
    Ok(())
}
