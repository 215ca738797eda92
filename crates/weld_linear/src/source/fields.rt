ghost use Rattle.std.specs.Prelude.{◌≡◌, IfOk, MatchOption};
ghost use Rattle.weld_meaning.specs.Origin.{value, origin_at, field_origin};
ghost use Rattle.weld_meaning.specs.Available.{field_within, at_path, is_builder_path};
ghost use Rattle.weld_linear.specs.Sources.{pack_origins};
ghost use Rattle.weld_linear.specs.Resolve.{follow};

use super::{Source, SourceForm, Sources};
use crate::path::split;
use std::alloc::{AllocError, Global};
use weld_tree::Sym;

impl Source {
    /// A copy of the origin.
    #[cycle(copy)]
    pub fn copy(&self, alloc: Global) -> Result<Source, AllocError>
        ensures { IfOk result (λ copy. copy ≡ self.now) }
    {
        let form = match &self.form {
            SourceForm::Value => SourceForm::Value,
            SourceForm::Made => SourceForm::Made,
            SourceForm::Own(path) => SourceForm::Own(path.copy(alloc)?),
            SourceForm::Outer => SourceForm::Outer,
            SourceForm::Named(name, path) => SourceForm::Named(*name, path.copy(alloc)?),
            SourceForm::Struct(fields) => SourceForm::Struct(fields.copy(alloc)?),
        };
        Ok(Source { form })
    }

    /// The origin of the field of that number, from 0.
    pub fn field(&self, number: usize, alloc: Global) -> Result<Source, AllocError>
        ensures { IfOk result (λ o. o ≡ field_origin number self.now) }
    {
        match &self.form {
            SourceForm::Value => Ok(Source::value()),
            SourceForm::Made => Ok(Source::made()),
            SourceForm::Own(path) => Ok(Source {
                form: SourceForm::Own(path.below(number, alloc)?),
            }),
            SourceForm::Outer => Ok(Source {
                form: SourceForm::Outer,
            }),
            SourceForm::Named(name, path) => Ok(Source {
                form: SourceForm::Named(*name, path.below(number, alloc)?),
            }),
            SourceForm::Struct(fields) => fields.copy_of(number, alloc),
        }
    }

    /// What field accesses along the path lead to.
    pub fn follow(&self, path: &[usize], alloc: Global) -> Result<Source, AllocError>
        ensures { IfOk result (λ o. o ≡ follow path.now self.now) }
    {
        match split(path) {
            None => self.copy(alloc),
            Some((number, rest)) => self.follow(rest, alloc)?.field(*number, alloc),
        }
    }

    /// What stands at the path of the struct; nothing where that is a value.
    pub fn at_path(&self, path: &[usize]) -> Option<&Source>
        ensures { MatchOption result (at_path path.now self.now ≡ value)
            (λ o. o.now ≡ at_path path.now self.now) }
    {
        match split(path) {
            None => Some(self),
            Some((number, rest)) => match self.at_path(rest) {
                None => None,
                Some(inner) => inner.within(*number),
            },
        }
    }

    /// The field of that number, from 0, of the struct; nothing where that is a value.
    fn within(&self, number: usize) -> Option<&Source>
        ensures { MatchOption result (field_within number self.now ≡ value)
            (λ o. o.now ≡ field_within number self.now) }
    {
        match &self.form {
            SourceForm::Struct(fields) => fields.nth(number),
            SourceForm::Value | SourceForm::Made | SourceForm::Outer => None,
            SourceForm::Own(_) | SourceForm::Named(_, _) => None,
        }
    }

    /// Whether the path leads to one of the five builders.
    pub(crate) fn is_builder_path(&self, path: &[usize]) -> bool
        ensures { result ≡ is_builder_path self.now path.now }
    {
        match self.at_path(path) {
            None => false,
            Some(inner) => inner.is_builder(),
        }
    }
}

impl Sources {
    #[cycle(copy)]
    fn copy(&self, alloc: Global) -> Result<Sources, AllocError>
        ensures { IfOk result (λ copy. copy ≡ self.now) }
    {
        let mut items = Vec::new(alloc);
        for item in &self.items {
            items.push(item.copy(alloc)?)?;
        }
        Ok(Sources { items })
    }

    /// The origin of that number, from 0; nothing behind the last.
    fn nth(&self, number: usize) -> Option<&Source>
        ensures { MatchOption result (origin_at number (pack_origins self.now) ≡ value)
            (λ o. o.now ≡ origin_at number (pack_origins self.now)) }
    {
        self.items.get(number)
    }

    fn copy_of(&self, number: usize, alloc: Global) -> Result<Source, AllocError>
        ensures { IfOk result (λ o. o ≡ origin_at number (pack_origins self.now)) }
    {
        match self.nth(number) {
            None => Ok(Source::value()),
            Some(item) => item.copy(alloc),
        }
    }
}
