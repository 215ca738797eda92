ghost use Rattle.std.specs.Prelude.{◌≡◌};
ghost use Rattle.weld_meaning.specs.LinearWalk.{is_seen, are_seen, is_not_made, are_not_made, same_origin, same_origins};
ghost use Rattle.weld_linear.specs.Sources.{pack_origins};

use super::{Source, SourceForm, Sources};
use crate::path::same_path;

impl Source {
    /// Whether no builder of outside the innermost lambda stands in it.
    #[cycle(seen)]
    pub fn is_seen(&self) -> bool
        ensures { result ≡ is_seen self.now }
    {
        match &self.form {
            SourceForm::Outer => false,
            SourceForm::Value | SourceForm::Made => true,
            SourceForm::Own(_) | SourceForm::Named(_, _) => true,
            SourceForm::Struct(fields) => fields.are_seen(),
        }
    }

    /// Whether no builder in it was made there.
    #[cycle(not_made)]
    pub fn is_not_made(&self) -> bool
        ensures { result ≡ is_not_made self.now }
    {
        match &self.form {
            SourceForm::Made => false,
            SourceForm::Value | SourceForm::Outer => true,
            SourceForm::Own(_) | SourceForm::Named(_, _) => true,
            SourceForm::Struct(fields) => fields.are_not_made(),
        }
    }

    /// Whether the two are one origin.
    #[cycle(same)]
    pub fn same(&self, other: &Source) -> bool
        ensures { result ≡ same_origin self.now other.now }
    {
        match (&self.form, &other.form) {
            (SourceForm::Value, SourceForm::Value) => true,
            (SourceForm::Made, SourceForm::Made) => true,
            (SourceForm::Outer, SourceForm::Outer) => true,
            (SourceForm::Own(path), SourceForm::Own(other_path)) => {
                same_path(path.as_slice(), other_path.as_slice())
            }
            (SourceForm::Named(name, path), SourceForm::Named(other_name, other_path)) => {
                name.0 == other_name.0 && same_path(path.as_slice(), other_path.as_slice())
            }
            (SourceForm::Struct(fields), SourceForm::Struct(other_fields)) => {
                fields.same(other_fields)
            }
            _ => false,
        }
    }
}

impl Sources {
    #[cycle(seen)]
    #[tactic(auto, using(crate::proofs::Left::seen_left, crate::proofs::Left::no_seen_left))]
    fn are_seen(&self) -> bool
        ensures { result ≡ are_seen (pack_origins self.now) }
    {
        for item in &self.items {
            if !item.is_seen() {
                return false;
            }
        }
        true
    }

    #[cycle(not_made)]
    #[tactic(auto, using(crate::proofs::Left::not_made_left, crate::proofs::Left::no_not_made_left))]
    fn are_not_made(&self) -> bool
        ensures { result ≡ are_not_made (pack_origins self.now) }
    {
        for item in &self.items {
            if !item.is_not_made() {
                return false;
            }
        }
        true
    }

    #[cycle(same)]
    #[tactic(auto, using(crate::proofs::Left::same_left, crate::proofs::Left::no_same_left, crate::proofs::Left::other_lengths))]
    fn same(&self, other: &Sources) -> bool
        ensures { result ≡ same_origins (pack_origins self.now) (pack_origins other.now) }
    {
        if self.items.len() != other.items.len() {
            return false;
        }
        for (i, item) in self.items.iter().enumerate() {
            if !item.same(&other.items[i]) {
                return false;
            }
        }
        true
    }
}
