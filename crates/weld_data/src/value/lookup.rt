//! Looking a key up in a dictionary.

ghost use Rattle.std.specs.Prelude.{◌≡◌, IfSome, IfNone, None, is_some, option_map};
ghost use Rattle.weld_data.specs.Value.{Value};
ghost use Rattle.weld_data.specs.View.{view_val};
ghost use Rattle.weld_data.specs.Order.{IsKeyFor};
ghost use Rattle.weld_data.specs.Lookup.{value_of_key, IsAt};

use super::{Pairs, Val, compare_keys};
use std::cmp::Ordering;

impl Pairs {
    /// The value of a key, which is of one key type with the dictionary's keys. It takes no memory.
    pub fn get(&self, key: &Val) -> Option<&Val>
        requires { IsKeyFor self.now (view_val key.now) }
        ensures { option_map (λ v. view_val v.now) result
            ≡ value_of_key self.now (view_val key.now) }
    {
        match self.position_of(key) {
            Some(index) => Some(&self.at(index).value),
            None => None,
        }
    }

    /// Whether the dictionary has a key, which is of one key type with its keys. It takes no memory.
    pub fn contains_key(&self, key: &Val) -> bool
        requires { IsKeyFor self.now (view_val key.now) }
        ensures { result ≡ is_some (value_of_key self.now (view_val key.now)) }
    {
        self.position_of(key).is_some()
    }

    /// The index of a key, found by halving.
    fn position_of(&self, key: &Val) -> Option<usize>
        requires { IsKeyFor self.now (view_val key.now) }
        ensures found { IfSome result (λ index. (e : Value × Value)
            × IsAt self.now (view_val key.now) index e) }
        ensures missing { IfNone result (value_of_key self.now (view_val key.now) ≡ None) }
    {
        let mut low = 0;
        let mut high = self.len();
        while low < high {
            let middle = low + (high - low) / 2;
            match compare_keys(&self.at(middle).key, key) {
                Ordering::Less => low = middle + 1,
                Ordering::Equal => return Some(middle),
                Ordering::Greater => high = middle,
            }
        }
        None
    }
}
