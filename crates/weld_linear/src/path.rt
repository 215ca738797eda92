ghost use Rattle.std.specs.Prelude.{◌≡◌, ◌∷◌, [], IfOk, IfSome, IfNone};
ghost use Rattle.weld_meaning.specs.Available.{same_path, is_below};

use std::alloc::{AllocError, Global};
use std::marker::Model;

/// A path into a struct of builders: the numbers of the fields that lead to a builder, the innermost first.
#[derive(Drop)]
pub struct Path {
    steps: Vec<usize>,
}

impl Model for Path {
    ghost use Rattle.std.specs.Prelude.{List, ℕ};

    ghost Value = { List ℕ };

    ghost view = { λ a. a.steps.items };
}

impl Path {
    /// The path of the whole. It takes no memory.
    pub fn root(alloc: Global) -> Path
        ensures { result ≡ [] }
    {
        Path {
            steps: Vec::new(alloc),
        }
    }

    /// A copy of the path.
    pub fn copy(&self, alloc: Global) -> Result<Path, AllocError>
        ensures { IfOk result (λ copy. copy ≡ self.now) }
    {
        let mut steps = Vec::new(alloc);
        steps.extend_from_slice(&self.steps)?;
        Ok(Path { steps })
    }

    /// The path of the field of that number, from 0, of what stands at this path.
    pub fn below(&self, number: usize, alloc: Global) -> Result<Path, AllocError>
        ensures { IfOk result (λ path. path ≡ number ∷ self.now) }
    {
        let mut steps = Vec::new(alloc);
        steps.push(number)?;
        steps.extend_from_slice(&self.steps)?;
        Ok(Path { steps })
    }

    /// The numbers of the fields, the innermost first.
    pub fn as_slice(&self) -> &[usize]
        ensures { result.now ≡ self.now }
    {
        self.steps.as_slice()
    }
}

/// The innermost field, and the path of the struct that has it.
pub(crate) fn split(path: &[usize]) -> Option<(&usize, &[usize])>
    ensures some { IfSome result (λ found. path.now ≡ found.0.now ∷ found.1.now) }
    ensures none { IfNone result (path.now ≡ []) }
{
    path.split_first()
}

/// Whether the two are one path.
pub(crate) fn same_path(path: &[usize], other: &[usize]) -> bool
    ensures { result ≡ same_path path.now other.now }
{
    match (split(path), split(other)) {
        (None, None) => true,
        (Some((field, rest)), Some((other_field, other_rest))) => {
            *field == *other_field && same_path(rest, other_rest)
        }
        _ => false,
    }
}

/// Whether the second path is the first or goes on from there.
pub(crate) fn is_below(path: &[usize], other: &[usize]) -> bool
    ensures { result ≡ is_below path.now other.now }
{
    match split(other) {
        None => same_path(path, other),
        Some((_, rest)) => same_path(path, other) || is_below(path, rest),
    }
}
