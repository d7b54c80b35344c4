//! A text of a string table.
ghost use Rattle.std.specs.Prelude.{◌≡◌, true};
ghost use Rattle.std.specs.Option.{ForSome};
ghost use Rattle.std.specs.Str.{is_utf8};
ghost use Rattle.osm_objects.specs.KeptKeys.{is_kept};
ghost use Rattle.osm_objects.specs.Tags.{as_text};
ghost use Rattle.osm_objects.specs.Answers.{Answers};

use crate::fault::ObjectFault;
use crate::kept::is_kept;
use osm_model::TagText;
use std::alloc::Global;
use std::str;

/// A text of a string table, and what was found out of it so far.
#[derive(Drop)]
pub struct Entry<'a> {
    pub bytes: &'a [u8],
    /// Whether tags with this key are kept.
    kept: Option<bool>,
    /// The text that objects share.
    text: Option<TagText>,
    ghost key_known: { ForSome kept (λ known. known ≡ is_kept bytes.now) },
    ghost text_known: { ForSome text (λ made. (made ≡ bytes.now) × (is_utf8 bytes.now ≡ true)) },
}

impl<'a> Entry<'a> {
    /// Nothing is known of the text yet.
    pub fn new(bytes: &'a [u8]) -> Entry<'a>
        ensures { result.bytes.now ≡ bytes.now }
    {
        Entry {
            bytes,
            kept: None,
            text: None,
        }
    }

    /// Whether tags with this key are kept.
    pub fn is_kept(&mut self) -> bool
        ensures answer { result ≡ is_kept self.old.bytes.now }
        ensures same { self.new.bytes.now ≡ self.old.bytes.now }
    {
        if let Some(kept) = self.kept {
            return kept;
        }
        let kept = is_kept(self.bytes);
        self.kept = Some(kept);
        kept
    }

    /// The text, which the object at `at` names by this index. It is made once, and then shared.
    pub fn text(&mut self, alloc: Global, at: u64, index: u64) -> Result<TagText, ObjectFault>
        ensures answer { Answers (λ text. text) result (as_text at index self.old.bytes.now) }
        ensures same { self.new.bytes.now ≡ self.old.bytes.now }
    {
        if let Some(text) = &self.text {
            return Ok(text.clone()?);
        }
        let Ok(text) = str::from_utf8(self.bytes) else {
            return Err(ObjectFault::BadString { at, index });
        };
        let made = TagText::from_str(alloc, text)?;
        let copy = made.clone()?;
        self.text = Some(made);
        Ok(copy)
    }
}
