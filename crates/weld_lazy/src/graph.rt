ghost use Rattle.std.specs.Prelude.{◌≡◌, ◌<◌, ◌≤◌, ◌++◌, ◌∷◌, [], length, option_map, IfOk, IfErr, OnOk, OnErr};
ghost use Rattle.weld_data.specs.View.{view_val};
ghost use Rattle.weld_tree.specs.TypeTree.{TypeTree};
ghost use Rattle.weld_objects.specs.Objects.{given, type_at, IsGiven, AreObjects};
ghost use Rattle.weld_objects.specs.Lowered.{names_of};

use crate::ids::ObjectId;
use crate::object::Object;
use std::alloc::{AllocError, Global};
use std::marker::Model;
use weld_data::Val;
use weld_objects::laws::objects_grow;
use weld_tree::Ty;

/// Objects that wait, each a value or a call of a program on objects before it. Contracts see the list
/// of the objects as plain data; an object's id is its place there. Of every graph it is known that
/// each value is of its type, which is well formed and builder-free, and that each call's program is
/// accepted, of the call's type, and has parameters of the types of the objects that it is made on.
#[derive(Drop)]
pub struct Graph {
    pub(crate) objects: Vec<Object>,
    pub(crate) names: u64,
}

impl Model for Graph {
    ghost use Rattle.std.specs.Prelude.{◌≡◌, ◌≤◌, List, map, length};
    ghost use Rattle.std.specs.Coded.{coded_list};
    ghost use Rattle.weld_objects.specs.Objects.{Object as PlainObject, AreObjects};
    ghost use Rattle.weld_objects.specs.Lowered.{names_of};
    ghost use Rattle.weld_lazy.specs.ObjectCode.{coded_object};
    ghost use Rattle.weld_lazy.specs.View.{view_object};

    ghost Value = { List PlainObject };

    ghost coded = { coded_list coded_object };

    ghost view = { λ g. map view_object g.objects.items };

    ghost invariant = { λ g. AreObjects (map view_object g.objects.items) × (names_of (map view_object g.objects.items) ≡ g.names) × (length g.objects.items ≤ 4294967295) };
}

impl Graph {
    /// The graph without objects. It takes no memory.
    pub fn new(alloc: Global) -> Graph
        ensures { result ≡ [] }
    {
        Graph {
            objects: Vec::new(alloc),
            names: 0,
        }
    }

    /// The type of the object, or None where it isn't there. It takes no memory.
    pub fn ty_of(&self, id: ObjectId) -> Option<&Ty>
        ensures { option_map (λ t. t.now) result ≡ type_at self.now id.0 }
    {
        match self.objects.get(id.0 as usize) {
            Some(object) => Some(object.ty()),
            None => None,
        }
    }

    /// How many objects there are, and binders in the fragments of the calls. It takes no memory.
    pub fn names(&self) -> u64
        ensures { result ≡ names_of self.now }
    {
        self.names
    }

    /// What is known of every graph, for callers that need it: it does nothing.
    pub fn keeps_its_rules(&self)
        ensures { AreObjects self.now }
    {
        let _ = &self.objects;
    }

    /// How many objects there are. It takes no memory.
    pub fn len(&self) -> usize
        ensures { result ≡ length self.now }
    {
        self.objects.len()
    }

    /// Adds a value of a well-formed, builder-free type, and answers its id. Where memory is wanting,
    /// the graph stays as it was, and the value is dropped.
    pub fn add_value(&mut self, value: Val, ty: Ty) -> Result<ObjectId, AllocError>
        requires room { length self.old < 4294967295 }
        requires fits { IsGiven ty (view_val value) }
        ensures id { IfOk result (λ id. id.0 ≡ length self.old) }
        ensures added { OnOk result (self.new ≡ self.old ++ given ty (view_val value) ∷ []) }
        ensures unchanged { OnErr result (self.new ≡ self.old) }
    {
        objects_grow();
        let id = ObjectId(self.objects.len() as u32);
        self.objects.push(Object::Given(ty, value))?;
        self.names += 1;
        Ok(id)
    }
}
