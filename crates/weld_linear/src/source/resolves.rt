ghost use Rattle.std.specs.Prelude.{◌≡◌, IfOk};
ghost use Rattle.weld_linear.specs.Resolve.{resolve, all_resolve};
ghost use Rattle.weld_linear.specs.Sources.{pack_origins};

use super::{Source, SourceForm, Sources};
use crate::scope::Scope;
use std::alloc::{AllocError, Global};

impl Source {
    /// The origin where each path of a name is read as what stands there.
    #[cycle(resolve)]
    pub fn resolve(&self, scope: &Scope, alloc: Global) -> Result<Source, AllocError>
        ensures { IfOk result (λ o. o ≡ resolve scope.now self.now) }
    {
        match &self.form {
            SourceForm::Value | SourceForm::Made => self.copy(alloc),
            SourceForm::Own(_) | SourceForm::Outer => self.copy(alloc),
            SourceForm::Named(name, path) => {
                let source = scope.origin_of(*name, alloc)?;
                source.follow(path.as_slice(), alloc)
            }
            SourceForm::Struct(fields) => Ok(Source {
                form: SourceForm::Struct(fields.resolve(scope, alloc)?),
            }),
        }
    }
}

impl Sources {
    #[cycle(resolve)]
    #[tactic(auto, using(crate::proofs::Left::resolve_left, crate::proofs::Left::no_resolve_left))]
    fn resolve(&self, scope: &Scope, alloc: Global) -> Result<Sources, AllocError>
        ensures { IfOk result (λ os. pack_origins os ≡ all_resolve scope.now
            (pack_origins self.now)) }
    {
        let mut items = Vec::new(alloc);
        for item in &self.items {
            items.push(item.resolve(scope, alloc)?)?;
        }
        Ok(Sources { items })
    }
}
