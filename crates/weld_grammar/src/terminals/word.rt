ghost use Rattle.std.specs.Prelude.{◌≡◌, ◌≤◌, length, IfOk};
ghost use Rattle.weld_grammar.specs.Words.{bytes_of, AreThere};

use std::alloc::{AllocError, Global};
use std::marker::Model;
use weld_data::Text;

/// How many bytes are kept in place.
const FEW: usize = 14;

/// The bytes of a token. Few of them, as most words, numbers and symbols have, take no memory of their own. Contracts see
/// the list of them.
#[derive(Debug, Drop)]
pub struct Word {
    bytes: Bytes,
}

/// So many of these in place, or a text.
#[derive(Debug, Drop)]
enum Bytes {
    Few(u8, [u8; FEW]),
    Many(Box<Text>),
}

impl Model for Word {
    ghost use Rattle.std.specs.Prelude.{List, ℕ};
    ghost use Rattle.weld_grammar.specs.Words.{bytes_of, AreThere};

    ghost Value = { List ℕ };

    ghost view = { λ w. bytes_of w.bytes };

    ghost invariant = { λ w. AreThere w.bytes };
}

impl Word {
    /// A copy of these bytes.
    pub fn copy_of(alloc: Global, bytes: &[u8]) -> Result<Word, AllocError>
        ensures { IfOk result (λ word. word ≡ bytes.now) }
    {
        if bytes.len() <= FEW {
            Ok(Word { bytes: few(bytes) })
        } else {
            let text = Text::copy_of(alloc, bytes)?;
            Ok(Word {
                bytes: Bytes::Many(Box::new(alloc, text)?),
            })
        }
    }

    /// The bytes.
    pub fn as_slice(&self) -> &[u8]
        ensures { result.now ≡ self.now }
    {
        match &self.bytes {
            Bytes::Few(count, bytes) => &bytes[..usize::from(*count)],
            Bytes::Many(text) => text.as_slice(),
        }
    }

    /// How many bytes there are.
    pub fn len(&self) -> usize
        ensures { result ≡ length self.now }
    {
        self.as_slice().len()
    }
}

/// These bytes, kept in place.
fn few(bytes: &[u8]) -> Bytes
    requires { length bytes.now ≤ 14 }
    ensures bytes { bytes_of result ≡ bytes.now }
    ensures there { AreThere result }
{
    let mut kept = [0u8; FEW];
    kept[..bytes.len()].copy_from_slice(bytes);
    Bytes::Few(bytes.len() as u8, kept)
}
