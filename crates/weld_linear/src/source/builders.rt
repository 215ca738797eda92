ghost use Rattle.std.specs.Prelude.{◌≡◌, ◌++◌, IfOk, OnOk};
ghost use Rattle.weld_meaning.specs.LinearWalk.{paths_below, paths_of_fields};
ghost use Rattle.weld_linear.specs.AvailableView.{of_name};
ghost use Rattle.weld_linear.specs.Sources.{pack_origins};

use super::{Source, SourceForm, Sources};
use crate::available::Available;
use crate::path::Path;
use std::alloc::{AllocError, Global};
use weld_tree::Sym;

impl Source {
    /// The builders of the name at or below the path, where this origin stands.
    pub fn builders(&self, name: Sym, path: &Path, alloc: Global) -> Result<Available, AllocError>
        ensures { IfOk result (λ found. found ≡ of_name name.0 (paths_below path.now self.now)) }
    {
        let mut found = Available::new(alloc);
        self.push_builders(name, path, &mut found, alloc)?;
        Ok(found)
    }

    #[cycle(builders)]
    #[tactic(auto, using(crate::proofs::Lists::append_none))]
    fn push_builders(
        &self,
        name: Sym,
        path: &Path,
        found: &mut Available,
        alloc: Global,
    ) -> Result<(), AllocError>
        ensures { OnOk result (found.new ≡ found.old ++ of_name name.0
            (paths_below path.now self.now)) }
    {
        match &self.form {
            SourceForm::Value => Ok(()),
            SourceForm::Struct(fields) => fields.push_builders(name, path, found, alloc),
            SourceForm::Made | SourceForm::Outer => found.push(name, path.copy(alloc)?),
            SourceForm::Own(_) | SourceForm::Named(_, _) => found.push(name, path.copy(alloc)?),
        }
    }
}

impl Sources {
    #[cycle(builders)]
    #[tactic(auto, using(crate::proofs::Lists::paths_left, crate::proofs::Lists::no_paths_left))]
    fn push_builders(
        &self,
        name: Sym,
        path: &Path,
        found: &mut Available,
        alloc: Global,
    ) -> Result<(), AllocError>
        ensures { OnOk result (found.new ≡ found.old ++ of_name name.0
            (paths_of_fields 0 path.now (pack_origins self.now))) }
    {
        for (number, item) in self.items.iter().enumerate() {
            let below = path.below(number, alloc)?;
            item.push_builders(name, &below, found, alloc)?;
        }
        Ok(())
    }
}
