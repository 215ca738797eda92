ghost use Rattle.std.specs.Prelude.{◌≡◌, [], IfOk};
ghost use Rattle.weld_meaning.specs.Origin.{own_paths, from_within, named_below};
ghost use Rattle.weld_linear.specs.Labels.{label_at, outer_at, marked, all_marked};
ghost use Rattle.weld_linear.specs.Sources.{pack_origins};

use super::{Source, SourceForm, Sources};
use crate::path::Path;
use std::alloc::{AllocError, Global};
use weld_tree::Sym;

/// What a builder is taken for, by its path: one of the lambda's own builder, one of outside the lambda, one of a
/// name.
#[derive(Clone, Copy)]
pub enum Label {
    Own,
    Outer,
    Named(Sym),
}

impl Label {
    /// The origin of the builder at the path.
    fn at(self, path: &Path, alloc: Global) -> Result<Source, AllocError>
        ensures { IfOk result (λ o. o ≡ label_at self path.now) }
    {
        match self {
            Label::Own => Ok(Source {
                form: SourceForm::Own(path.copy(alloc)?),
            }),
            Label::Outer => Ok(Source {
                form: SourceForm::Outer,
            }),
            Label::Named(sym) => Ok(Source {
                form: SourceForm::Named(sym, path.copy(alloc)?),
            }),
        }
    }

    /// The origin of a builder of outside at the path.
    fn at_outer(self, path: &Path, alloc: Global) -> Result<Source, AllocError>
        ensures { IfOk result (λ o. o ≡ outer_at self path.now) }
    {
        match self {
            Label::Own => self.at(path, alloc),
            Label::Outer | Label::Named(_) => Ok(Source {
                form: SourceForm::Outer,
            }),
        }
    }
}

impl Source {
    /// The paths of a lambda's own builder that has the form of this one.
    #[tactic(auto, using(crate::proofs::Marks::marked_own))]
    pub fn own_paths(&self, alloc: Global) -> Result<Source, AllocError>
        ensures { IfOk result (λ o. o ≡ own_paths self.now) }
    {
        self.mark(Label::Own, &Path::root(alloc), alloc)
    }

    /// The origin as it is seen from within a lambda.
    #[tactic(auto, using(crate::proofs::Marks::marked_outer))]
    pub fn from_within(&self, alloc: Global) -> Result<Source, AllocError>
        ensures { IfOk result (λ o. o ≡ from_within self.now) }
    {
        self.mark(Label::Outer, &Path::root(alloc), alloc)
    }

    /// The paths of a name that has this origin.
    #[tactic(auto, using(crate::proofs::Marks::marked_named))]
    pub fn paths_of(&self, name: Sym, alloc: Global) -> Result<Source, AllocError>
        ensures { IfOk result (λ o. o ≡ named_below name.0 [] self.now) }
    {
        self.mark(Label::Named(name), &Path::root(alloc), alloc)
    }

    #[cycle(mark)]
    fn mark(&self, label: Label, path: &Path, alloc: Global) -> Result<Source, AllocError>
        ensures { IfOk result (λ o. o ≡ marked label path.now self.now) }
    {
        match &self.form {
            SourceForm::Value => Ok(Source::value()),
            SourceForm::Struct(fields) => Ok(Source {
                form: SourceForm::Struct(fields.mark(label, path, alloc)?),
            }),
            SourceForm::Outer => label.at_outer(path, alloc),
            SourceForm::Made => label.at(path, alloc),
            SourceForm::Own(_) | SourceForm::Named(_, _) => label.at(path, alloc),
        }
    }
}

impl Sources {
    #[cycle(mark)]
    #[tactic(auto, using(crate::proofs::Left::mark_left, crate::proofs::Left::no_mark_left))]
    fn mark(&self, label: Label, path: &Path, alloc: Global) -> Result<Sources, AllocError>
        ensures { IfOk result (λ os. pack_origins os ≡ all_marked label 0 path.now
            (pack_origins self.now)) }
    {
        let mut items = Vec::new(alloc);
        for (number, item) in self.items.iter().enumerate() {
            let below = path.below(number, alloc)?;
            items.push(item.mark(label, &below, alloc)?)?;
        }
        Ok(Sources { items })
    }
}
