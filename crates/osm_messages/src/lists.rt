//! The numbers of an object, list by list.
ghost use Rattle.std.specs.Prelude.{◌≡◌, ◌+◌, ◌<◌, ◌^◌, length, [], IsTrue};
ghost use Rattle.osm_messages.specs.Answers.{Becomes};
ghost use Rattle.osm_messages.specs.Lists.{seen_lists, number_lists, has_list, list_at, put_value, put_values};
ghost use Rattle.osm_messages.specs.RawNumbers.{node_numbers, seen_raw_node, dense_numbers, seen_raw_dense, way_numbers, seen_raw_way, relation_numbers, seen_raw_relation};

use crate::fault::MessageFault;
use crate::fields::{
    DENSE_ID, DENSE_KEYS_VALS, DENSE_LAT, DENSE_LON, NODE_ID, NODE_KEYS, NODE_LAT, NODE_LON,
    NODE_VALS, RELATION_ID, RELATION_KEYS, RELATION_MEMIDS, RELATION_ROLES_SID, RELATION_TYPES,
    RELATION_VALS, WAY_ID, WAY_KEYS, WAY_REFS, WAY_VALS,
};
use crate::packed::push_packed;
use crate::raw::{RawDenseNodes, RawNode, RawRelation, RawWay};
use std::alloc::Global;

/// The numbers of an object, one list for each number that a field with numbers has in some message. `node`,
/// `dense_nodes`, `way` and `relation` give them the names of the fields. The lists are cleared and keep their memory
/// from one object to the next.
#[derive(Drop)]
pub struct NumberLists {
    field_1: Vec<u64>,
    field_2: Vec<u64>,
    field_3: Vec<u64>,
    field_8: Vec<u64>,
    field_9: Vec<u64>,
    field_10: Vec<u64>,
}

impl NumberLists {
    /// Empty lists. Does not allocate.
    pub fn new(alloc: Global) -> NumberLists
        ensures { seen_lists result ≡ number_lists [] }
    {
        NumberLists {
            field_1: Vec::new(alloc),
            field_2: Vec::new(alloc),
            field_3: Vec::new(alloc),
            field_8: Vec::new(alloc),
            field_9: Vec::new(alloc),
            field_10: Vec::new(alloc),
        }
    }

    /// Empties the lists.
    pub fn clear(&mut self)
        ensures { seen_lists self.new ≡ number_lists [] }
    {
        self.field_1.clear();
        self.field_2.clear();
        self.field_3.clear();
        self.field_8.clear();
        self.field_9.clear();
        self.field_10.clear();
    }

    /// Appends one number to those of the field with this number.
    pub fn push(&mut self, field: u32, number: u64) -> Result<(), MessageFault>
        requires { IsTrue (has_list field) }
        ensures { Becomes result (seen_lists self.new) (put_value field (seen_lists self.old) number) }
    {
        match field {
            1 => self.field_1.push(number)?,
            2 => self.field_2.push(number)?,
            3 => self.field_3.push(number)?,
            8 => self.field_8.push(number)?,
            9 => self.field_9.push(number)?,
            _ => self.field_10.push(number)?,
        }
        Ok(())
    }

    /// Appends packed numbers to those of the field with this number. The first byte stands at `at`.
    pub fn push_packed(&mut self, field: u32, bytes: &[u8], at: u64) -> Result<(), MessageFault>
        requires listed { IsTrue (has_list field) }
        requires place { at + length bytes.now < 2 ^ 64 }
        ensures { Becomes result (seen_lists self.new) (put_values field (seen_lists self.old) at bytes.now) }
    {
        match field {
            1 => push_packed(&mut self.field_1, bytes, at),
            2 => push_packed(&mut self.field_2, bytes, at),
            3 => push_packed(&mut self.field_3, bytes, at),
            8 => push_packed(&mut self.field_8, bytes, at),
            9 => push_packed(&mut self.field_9, bytes, at),
            _ => push_packed(&mut self.field_10, bytes, at),
        }
    }

    /// The numbers of the field with this number.
    fn numbers(&self, field: u32) -> &[u64]
        requires { IsTrue (has_list field) }
        ensures { result.now ≡ list_at field (seen_lists self.now) }
    {
        match field {
            1 => self.field_1.as_slice(),
            2 => self.field_2.as_slice(),
            3 => self.field_3.as_slice(),
            8 => self.field_8.as_slice(),
            9 => self.field_9.as_slice(),
            _ => self.field_10.as_slice(),
        }
    }

    /// The numbers of a `Node`.
    pub fn node(&self) -> RawNode<'_>
        ensures { seen_raw_node result ≡ node_numbers (seen_lists self.now) }
    {
        RawNode {
            id: self.numbers(NODE_ID),
            keys: self.numbers(NODE_KEYS),
            vals: self.numbers(NODE_VALS),
            lat: self.numbers(NODE_LAT),
            lon: self.numbers(NODE_LON),
        }
    }

    /// The numbers of a `DenseNodes`.
    pub fn dense_nodes(&self) -> RawDenseNodes<'_>
        ensures { seen_raw_dense result ≡ dense_numbers (seen_lists self.now) }
    {
        RawDenseNodes {
            id: self.numbers(DENSE_ID),
            lat: self.numbers(DENSE_LAT),
            lon: self.numbers(DENSE_LON),
            keys_vals: self.numbers(DENSE_KEYS_VALS),
        }
    }

    /// The numbers of a `Way`.
    pub fn way(&self) -> RawWay<'_>
        ensures { seen_raw_way result ≡ way_numbers (seen_lists self.now) }
    {
        RawWay {
            id: self.numbers(WAY_ID),
            keys: self.numbers(WAY_KEYS),
            vals: self.numbers(WAY_VALS),
            refs: self.numbers(WAY_REFS),
        }
    }

    /// The numbers of a `Relation`.
    pub fn relation(&self) -> RawRelation<'_>
        ensures { seen_raw_relation result ≡ relation_numbers (seen_lists self.now) }
    {
        RawRelation {
            id: self.numbers(RELATION_ID),
            keys: self.numbers(RELATION_KEYS),
            vals: self.numbers(RELATION_VALS),
            roles_sid: self.numbers(RELATION_ROLES_SID),
            memids: self.numbers(RELATION_MEMIDS),
            types: self.numbers(RELATION_TYPES),
        }
    }
}
