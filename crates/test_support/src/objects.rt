//! A writer of extracts, object by object, with any tags.

use crate::extracts::{HEADER, data_triple, deltas, put_field, put_varint, zigzag};
use std::alloc::{AllocError, Global};

/// The objects of a data block, each in a group of its own, and the table of their texts. A text stands in it as often
/// as it was written.
#[derive(Debug, Drop)]
pub struct BlockWriter {
    /// The texts, each as a field of the table. The first is "".
    texts: Vec<u8>,
    count: u64,
    /// The groups, each as a field of the block.
    groups: Vec<u8>,
}

impl BlockWriter {
    /// A block without objects.
    pub fn new(alloc: Global) -> Result<BlockWriter, AllocError> {
        Ok(BlockWriter {
            texts: Vec::from_slice(alloc, &[0x0a, 0x00])?,
            count: 1,
            groups: Vec::new(alloc),
        })
    }

    /// A node, with its place in units of 1e-7 degree and tags as `KEY=VALUE;KEY=VALUE`.
    pub fn node(&mut self, id: i64, lat: i64, lon: i64, tags: &str) -> Result<(), AllocError> {
        let mut node = Vec::new(*self.texts.allocator());
        put_number(&mut node, 0x08, zigzag(id))?;
        self.put_tags(&mut node, tags)?;
        put_number(&mut node, 0x40, zigzag(lat))?;
        put_number(&mut node, 0x48, zigzag(lon))?;
        self.put_object(0x0a, &node)
    }

    /// A way, with tags as `KEY=VALUE;KEY=VALUE` and its refs.
    pub fn way(&mut self, id: u64, tags: &str, refs: &[i64]) -> Result<(), AllocError> {
        let alloc = *self.texts.allocator();
        let mut way = Vec::new(alloc);
        put_number(&mut way, 0x08, id)?;
        self.put_tags(&mut way, tags)?;
        put_field(&mut way, 0x42, &deltas(alloc, refs)?)?;
        self.put_object(0x1a, &way)
    }

    /// A relation without members, with tags as `KEY=VALUE;KEY=VALUE`.
    pub fn relation(&mut self, id: u64, tags: &str) -> Result<(), AllocError> {
        let mut relation = Vec::new(*self.texts.allocator());
        put_number(&mut relation, 0x08, id)?;
        self.put_tags(&mut relation, tags)?;
        self.put_object(0x22, &relation)
    }

    /// Nodes 1, 2 and so on without tags, on the equator at 0, 10,000 and so on units of longitude.
    pub fn nodes_in_a_row(&mut self, count: u8) -> Result<(), AllocError> {
        for place in 0..count {
            let place = i64::from(place);
            self.node(place.saturating_add(1), 0, place.saturating_mul(10_000), "")?;
        }
        Ok(())
    }

    /// The bytes of the block: the table in field 1, and the groups in field 2.
    pub fn block(&self) -> Result<Vec<u8>, AllocError> {
        let mut block = Vec::new(*self.texts.allocator());
        put_field(&mut block, 0x0a, &self.texts)?;
        block.extend_from_slice(&self.groups)?;
        Ok(block)
    }

    /// The small header, and the triple of the block.
    pub fn extract(&self) -> Result<Vec<u8>, AllocError> {
        let alloc = *self.texts.allocator();
        let mut bytes = Vec::from_slice(alloc, &HEADER)?;
        bytes.extend_from_slice(&data_triple(alloc, &self.block()?)?)?;
        Ok(bytes)
    }

    /// Writes the numbers of the tags' texts into an object: the keys in field 2, the values in field 3.
    fn put_tags(&mut self, object: &mut Vec<u8>, tags: &str) -> Result<(), AllocError> {
        let alloc = *self.texts.allocator();
        let mut keys = Vec::new(alloc);
        let mut values = Vec::new(alloc);
        for tag in tags.split(';') {
            match tag.split_once('=') {
                Some((key, value)) => {
                    let number = self.put_text(key)?;
                    put_varint(&mut keys, number)?;
                    let number = self.put_text(value)?;
                    put_varint(&mut values, number)?;
                }
                None => (),
            }
        }
        put_field(object, 0x12, &keys)?;
        put_field(object, 0x1a, &values)
    }

    /// Writes a text behind those of the table, and answers its number.
    fn put_text(&mut self, text: &str) -> Result<u64, AllocError> {
        let number = self.count;
        put_field(&mut self.texts, 0x0a, text.as_bytes())?;
        self.count = number.saturating_add(1);
        Ok(number)
    }

    /// Writes an object into a group of its own.
    fn put_object(&mut self, tag: u8, object: &[u8]) -> Result<(), AllocError> {
        let mut group = Vec::new(*self.texts.allocator());
        put_field(&mut group, tag, object)?;
        put_field(&mut self.groups, 0x12, &group)
    }
}

/// A field of one number behind its tag, the number of the field times eight.
fn put_number(bytes: &mut Vec<u8>, tag: u8, number: u64) -> Result<(), AllocError> {
    bytes.push(tag)?;
    put_varint(bytes, number)
}
