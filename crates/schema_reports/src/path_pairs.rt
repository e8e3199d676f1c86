//! Where everything that is wrong stands.
ghost use Rattle.std.specs.Prelude.{◌≡◌, ◌++◌, ◌∷◌, [], map, reverse, string_bytes, IfOk, OnOk};
ghost use Rattle.serde_json.specs.Data.{Data};
ghost use Rattle.json_values.specs.Pointers.{pointer_text};
ghost use Rattle.schema_meaning.specs.Faults.{Fault, Faults, none, also, joined, instance_path, evaluation_path};
ghost use Rattle.schema_definitions.specs.Lines.{paths_of};
ghost use Rattle.location_texts.specs.Locations.{location_of};
ghost use Rattle.schema_reports.specs.Pairs.{pair_bytes};

use crate::error::ValidationError;
use location_texts::LazyLocation;
use schema_steps::Path;
use std::alloc::{AllocError, Global};

/// Room for the text of a path. Most are no longer.
const ROOM: usize = 64;

/// Keeps the two paths of each fault that it is told, in order, as pointers' texts: that in the instance, and that of evaluation.
#[derive(Drop)]
pub struct PathPairs {
    pairs: Vec<(String, String)>,
}

impl PathPairs {
    ghost use Rattle.schema_reports.specs.Stands.{pairs_stand};
    ghost use Rattle.schema_reports.specs.Told.{spot_of, fault_of};
    ghost use Rattle.schema_meaning.specs.Rules.{each_of_object};

    /// No fault was told. It allocates nothing.
    pub fn new(alloc: Global) -> Self
        ensures { pairs_stand result none }
    {
        PathPairs {
            pairs: Vec::new(alloc),
        }
    }

    /// The pairs of the faults that were told: the path in the instance, and the path of evaluation.
    pub fn into_pairs(self) -> Vec<(String, String)>
        ensures { (fs : Faults) → pairs_stand self fs → map pair_bytes result.items ≡ paths_of fs }
    {
        self.pairs
    }

    /// Keeps the paths of a fault that stands there, after what was told before.
    pub(crate) fn add(
        &mut self,
        alloc: Global,
        instance: &LazyLocation<'_, '_>,
        evaluation: &LazyLocation<'_, '_>,
    ) -> Result<(), AllocError>
        ensures { OnOk result ((fs : Faults) (f : Fault) → instance_path f ≡ location_of instance.now
            → evaluation_path f ≡ location_of evaluation.now
            → pairs_stand self.old fs → pairs_stand self.new (joined fs (also f none))) }
    {
        let instance = location_text(alloc, instance)?;
        let evaluation = location_text(alloc, evaluation)?;
        self.pairs.push((instance, evaluation))?;
        Ok(())
    }

    /// Keeps the paths of an error, after what was told before.
    pub(crate) fn add_error(
        &mut self,
        alloc: Global,
        error: ValidationError<'_>,
    ) -> Result<(), AllocError>
        ensures { OnOk result ((fs : Faults) → pairs_stand self.old fs
            → pairs_stand self.new (joined fs (also (fault_of error.entry) none))) }
    {
        let instance = path_text(alloc, error.instance_path())?;
        let evaluation = path_text(alloc, error.evaluation_path())?;
        self.pairs.push((instance, evaluation))?;
        Ok(())
    }

    /// Hears all that another one heard, after what was told before.
    pub(crate) fn absorb(&mut self, mut heard: Vec<(String, String)>) -> Result<(), AllocError>
        ensures { OnOk result ((fs gs : Faults) → pairs_stand self.old fs
            → map pair_bytes heard.items ≡ paths_of gs → pairs_stand self.new (joined fs gs)) }
    {
        self.pairs.append(&mut heard)
    }

    /// Hears of an object at a place all that another one heard of a name: each fault stands there, and has the same path of evaluation.
    pub(crate) fn absorb_names(
        &mut self,
        alloc: Global,
        heard: Vec<(String, String)>,
        at: &LazyLocation<'_, '_>,
    ) -> Result<(), AllocError>
        ensures { OnOk result ((object : Data) (fs gs : Faults) → pairs_stand self.old fs
            → map pair_bytes heard.items ≡ paths_of gs
            → pairs_stand self.new
            (joined fs (each_of_object (spot_of object (location_of at.now)) gs))) }
    {
        for (_, evaluation) in heard {
            self.pairs.push((location_text(alloc, at)?, evaluation))?;
        }
        Ok(())
    }
}

fn location_text(alloc: Global, location: &LazyLocation<'_, '_>) -> Result<String, AllocError>
    ensures { IfOk result (λ text. string_bytes text ≡ pointer_text (reverse (location_of location.now))) }
{
    let mut text = String::with_capacity(alloc, ROOM)?;
    location.write_to(&mut text)?;
    Ok(text)
}

fn path_text(alloc: Global, path: &Path) -> Result<String, AllocError>
    ensures { IfOk result (λ text. string_bytes text ≡ pointer_text (reverse path.now)) }
{
    let mut text = String::with_capacity(alloc, ROOM)?;
    path.write_to(&mut text)?;
    Ok(text)
}
