ghost use Rattle.std.specs.Prelude.{◌≡◌, ◌≤◌, ◌++◌, [], ◌∷◌, All, OnOk};
ghost use Rattle.weld_meaning.specs.Origin.{value, made, is_value, are_values, struct_origin};
ghost use Rattle.weld_meaning.specs.Available.{is_builder};
ghost use Rattle.weld_meaning.specs.LinearWalk.{is_own};
ghost use Rattle.weld_linear.specs.Sources.{pack_origins, origin_nodes, origins_nodes};

use crate::path::Path;
use std::alloc::{AllocError, Global};
use std::marker::Model;
use weld_tree::Sym;

mod builders;
mod fields;
mod marks;
mod resolves;
mod tests;

pub use marks::Label;

/// Where the builders of a thing come from. Contracts see it as plain data, an origin of the meaning.
#[cycle(source)]
#[derive(Drop)]
pub struct Source {
    pub form: SourceForm,
}

/// An origin, one level of it: a value; a builder made by a builder node; a path of the innermost lambda's own
/// builder; a builder of outside that lambda; a path of a name; a struct by its fields.
#[cycle(source)]
#[derive(Drop)]
pub enum SourceForm {
    Value,
    Made,
    Own(Path),
    Outer,
    Named(Sym, Path),
    Struct(Sources),
}

/// A list of origins.
#[cycle(source)]
#[derive(Drop)]
pub struct Sources {
    items: Vec<Source>,
}

impl Model for Source {
    ghost use Rattle.weld_meaning.specs.Origin.{Origin};
    ghost use Rattle.weld_linear.specs.Sources.{coded_origin};

    ghost Value = { Origin };

    ghost coded = { coded_origin };

    ghost use Rattle.weld_linear.specs.SourceView.{view_source};

    ghost view = { λ s. view_source s.form };

    ghost use Rattle.weld_linear.specs.Sources.{origin_size};

    ghost size = { origin_size };

    ghost use Rattle.std.proofs.Common.{arith};

    ghost size_decreases = { λ a h. Prim.grind arith };
}

impl Model for Sources {
    ghost use Rattle.std.specs.Prelude.{List};
    ghost use Rattle.std.specs.Coded.{coded_list};
    ghost use Rattle.weld_meaning.specs.Origin.{Origin};
    ghost use Rattle.weld_linear.specs.Sources.{coded_origin};

    ghost Value = { List Origin };

    ghost coded = { coded_list coded_origin };

    ghost view = { λ a. a.items.items };

    ghost use Rattle.weld_linear.specs.Sources.{origins_size, most-origins_size};

    ghost size = { origins_size };

    ghost use Rattle.std.proofs.Common.{arith};

    ghost size_decreases = { λ a h. Prim.omega (arith, most-origins_size a.items.items) };
}

impl Source {
    /// The origin of a value. It takes no memory.
    pub fn value() -> Source
        ensures { result ≡ value }
    {
        Source {
            form: SourceForm::Value,
        }
    }

    /// The origin of a builder that a builder node makes. It takes no memory.
    pub fn made() -> Source
        ensures { result ≡ made }
    {
        Source {
            form: SourceForm::Made,
        }
    }

    /// The origin of a struct with fields of these origins. It takes no memory.
    pub fn struct_of(fields: Sources) -> Source
        ensures { result ≡ struct_origin (pack_origins fields) }
    {
        if fields.are_values() {
            return Source::value();
        }
        Source {
            form: SourceForm::Struct(fields),
        }
    }

    /// Whether it is that of a value.
    pub fn is_value(&self) -> bool
        ensures { result ≡ is_value self.now }
    {
        match &self.form {
            SourceForm::Value => true,
            SourceForm::Made | SourceForm::Own(_) | SourceForm::Outer => false,
            SourceForm::Named(_, _) | SourceForm::Struct(_) => false,
        }
    }

    /// Whether it is that of one of the five builders.
    pub fn is_builder(&self) -> bool
        ensures { result ≡ is_builder self.now }
    {
        match &self.form {
            SourceForm::Made | SourceForm::Own(_) | SourceForm::Outer => true,
            SourceForm::Named(_, _) => true,
            SourceForm::Value | SourceForm::Struct(_) => false,
        }
    }

    /// Whether it is a path of the innermost lambda's own builder.
    pub fn is_own(&self) -> bool
        ensures { result ≡ is_own self.now }
    {
        match &self.form {
            SourceForm::Own(_) => true,
            SourceForm::Value | SourceForm::Made | SourceForm::Outer => false,
            SourceForm::Named(_, _) | SourceForm::Struct(_) => false,
        }
    }
}

impl Sources {
    /// The list without origins. It takes no memory.
    pub fn new(alloc: Global) -> Sources
        ensures { result ≡ [] }
    {
        Sources {
            items: Vec::new(alloc),
        }
    }

    /// Appends an origin.
    pub fn push(&mut self, item: Source) -> Result<(), AllocError>
        ensures { OnOk result (self.new ≡ self.old ++ item ∷ []) }
    {
        self.items.push(item)?;
        Ok(())
    }

    /// The origins. None has more nodes than all of them together.
    #[tactic(auto, using(crate::proofs::Left::origins_parts))]
    pub fn as_slice(&self) -> &[Source]
        ensures value { result.now ≡ self.now }
        ensures parts { All (λ o. origin_nodes o ≤ origins_nodes (pack_origins self.now)) result.now }
    {
        self.items.as_slice()
    }

    /// Whether each of these is the origin of a value.
    #[tactic(auto, using(crate::proofs::Left::values_left, crate::proofs::Left::no_values_left))]
    fn are_values(&self) -> bool
        ensures { result ≡ are_values (pack_origins self.now) }
    {
        for item in &self.items {
            if !item.is_value() {
                return false;
            }
        }
        true
    }
}
