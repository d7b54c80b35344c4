//! The string table of a block, and the texts that its objects share.
ghost use Rattle.std.specs.Prelude.{◌≡◌, map, IfOk};

use crate::entry::Entry;
use crate::fault::ObjectFault;
use osm_model::{Tag, TagText};
use std::alloc::{AllocError, Global};

/// The texts of a string table. Each text that is kept is made when it is first used.
#[derive(Drop)]
pub struct Texts<'a> {
    pub entries: Vec<Entry<'a>>,
}

impl<'a> Texts<'a> {
    ghost use Rattle.osm_objects.specs.Tags.{bytes_at, keeps, text_at, tag_of};
    ghost use Rattle.osm_objects.specs.Answers.{Answers, Becomes, Admits, after};
    ghost use Rattle.osm_objects.specs.Seen.{table_of};

    /// Nothing is known of these texts yet.
    pub fn new(alloc: Global, table: &[&'a [u8]]) -> Result<Texts<'a>, AllocError>
        ensures { IfOk result (λ texts. table_of texts ≡ map (λ text. text.now) table.now) }
    {
        let mut entries = Vec::with_capacity(alloc, table.len())?;
        for i in 0..table.len() {
            entries.push(Entry::new(table[i]))?;
        }
        Ok(Texts { entries })
    }

    /// Whether tags are kept whose key has this index, which the object at `at` names.
    fn is_kept(&mut self, at: u64, index: u64) -> Result<bool, ObjectFault>
        ensures answer { Answers (λ kept. kept) result (keeps (table_of self.old) at index) }
        ensures table { table_of self.new ≡ table_of self.old }
    {
        if index >= self.entries.len() as u64 {
            return Err(ObjectFault::BadString { at, index });
        }
        let entry = &mut self.entries[index as usize];
        Ok(entry.is_kept())
    }

    /// Checks that there is a text with this index, which the object at `at` names.
    fn check_index(&self, at: u64, index: u64) -> Result<(), ObjectFault>
        ensures { Admits result (bytes_at (table_of self.now) at index) }
    {
        if index >= self.entries.len() as u64 {
            return Err(ObjectFault::BadString { at, index });
        }
        Ok(())
    }

    /// The text with this index, which the object at `at` names.
    pub fn text(&mut self, alloc: Global, at: u64, index: u64) -> Result<TagText, ObjectFault>
        ensures answer { Answers (λ text. text) result (text_at (table_of self.old) at index) }
        ensures table { table_of self.new ≡ table_of self.old }
    {
        if index >= self.entries.len() as u64 {
            return Err(ObjectFault::BadString { at, index });
        }
        let entry = &mut self.entries[index as usize];
        entry.text(alloc, at, index)
    }

    /// Appends the tag of this key and this value, where it is kept.
    pub fn add_tag(
        &mut self,
        alloc: Global,
        at: u64,
        key: u64,
        value: u64,
        tags: &mut Vec<Tag>,
    ) -> Result<(), ObjectFault>
        ensures tags { Becomes result tags.new.items (after tags.old.items (tag_of (table_of self.old) at (key, value))) }
        ensures table { table_of self.new ≡ table_of self.old }
    {
        if !self.is_kept(at, key)? {
            return self.check_index(at, value);
        }
        let key = self.text(alloc, at, key)?;
        let value = self.text(alloc, at, value)?;
        tags.push(Tag { key, value })?;
        Ok(())
    }
}
