//! An extract while it is read.

ghost use Rattle.std.specs.Prelude.{◌≡◌, ◌+◌, ◌<◌, ◌≤◌, ◌^◌, false, length, IfErr, OnOk};
ghost use Rattle.osm_objects.specs.Sizes.{parts_in};
ghost use Rattle.osm_blocks.specs.Faults.{is_read};

use crate::counts::{count, first_past};
use crate::fault::ExtractFault;
use crate::features::check_header;
use crate::lists::{add_block, extract_of, order_all};
use osm_model::Extract;
use osm_objects::ObjectLists;
use pbf_blobs::Blob;
use std::alloc::Global;

/// What has been read: whether a header block came, and all objects in the order of the bytes.
#[derive(Drop)]
pub struct Draft {
    headed: bool,
    lists: ObjectLists,
}

impl Draft {
    ghost use Rattle.osm_blocks.specs.Extracts.{empty_draft, with_blob};
    ghost use Rattle.osm_blocks.specs.Steps.{seen, ArePlaced, Becomes, Finishes};

    /// Nothing yet. Takes no memory.
    pub fn new(alloc: Global) -> Draft
        ensures empty { seen result ≡ empty_draft }
        ensures placed { ArePlaced result }
        ensures none { parts_in (seen result).objects ≡ 0 }
    {
        Draft {
            headed: false,
            lists: ObjectLists::new(alloc),
        }
    }

    /// Adds what a blob says: at most as many objects, tags, refs and members, all together, as its payload has bytes.
    pub fn add_blob(&mut self, alloc: Global, blob: &Blob) -> Result<(), ExtractFault>
        requires places { blob.now.raw_at + length blob.now.raw < 2 ^ 64 }
        requires room { parts_in (seen self.now).objects + length blob.now.raw < 2 ^ 31 }
        ensures blob { Becomes result (seen self.new) (with_blob (seen self.old) blob.now) }
        ensures placed { ArePlaced self.old → OnOk result (ArePlaced self.new) }
        ensures grown { OnOk result (parts_in (seen self.new).objects ≤ parts_in (seen self.old).objects + length blob.now.raw) }
        ensures no_read { IfErr result (λ fault. is_read fault ≡ false) }
    {
        let kind = blob.kind.as_str();
        if kind == "OSMHeader" {
            return match check_header(alloc, blob.raw.as_slice(), blob.raw_at) {
                Ok(()) => {
                    self.headed = true;
                    Ok(())
                }
                Err(fault) => Err(fault),
            };
        }
        if kind != "OSMData" {
            return Ok(());
        }
        if !self.headed {
            return Err(ExtractFault::NoHeader { at: blob.at });
        }
        match add_block(alloc, &mut self.lists, blob.raw.as_slice(), blob.raw_at) {
            Ok(()) => Ok(()),
            Err(fault) => Err(fault),
        }
    }

    /// The extract of all that was read from an input of `size` bytes. Memory is taken only where nodes aren't in order of
    /// id.
    pub fn finish(self, alloc: Global, size: u64) -> Result<Extract, ExtractFault>
        requires { ArePlaced self }
        ensures end { Finishes size (seen self) result }
        ensures no_read { IfErr result (λ fault. is_read fault ≡ false) }
    {
        if !self.headed {
            return Err(ExtractFault::NoHeader { at: size });
        }
        let mut lists = self.lists;
        match order_all(alloc, &mut lists) {
            Ok(None) => {}
            Ok(Some((kind, id))) => return Err(ExtractFault::DuplicateId { kind, id }),
            Err(_) => return Err(ExtractFault::OutOfMemory),
        }
        let counts = count(&lists);
        if let Some((what, count)) = first_past(&counts) {
            return Err(ExtractFault::TooMany { what, count });
        }
        Ok(extract_of(lists))
    }
}
