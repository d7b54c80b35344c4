//! String tables.
ghost use Rattle.std.specs.Prelude.{◌+◌, ◌<◌, ◌^◌, length, map};
ghost use Rattle.wire_read.specs.Fields.{seen};
ghost use Rattle.osm_messages.specs.Answers.{Answers, Becomes};
ghost use Rattle.osm_messages.specs.Texts.{text_step, texts_in};

use crate::fault::MessageFault;
use crate::fields::STRINGTABLE_S;
use std::alloc::Global;
use wire_read::{Body, Field, Fields};

/// Appends the string that a field of a string table holds.
fn add_text<'a>(texts: &mut Vec<&'a [u8]>, field: Field<'a>) -> Result<(), MessageFault>
    ensures { Becomes result (map (λ text. text.now) texts.new.items) (text_step (map (λ text. text.now) texts.old.items) (seen field.entry)) }
{
    match field.body {
        Body::Bytes(text) if field.number == STRINGTABLE_S => texts.push(text)?,
        _ => {}
    }
    Ok(())
}

/// The strings of a string table, the first byte of which stands at `at`. They are slices of its bytes.
pub fn read_texts<'a>(
    alloc: Global,
    bytes: &'a [u8],
    at: u64,
) -> Result<Vec<&'a [u8]>, MessageFault>
    requires { at + length bytes.now < 2 ^ 64 }
    ensures { Answers (λ texts. map (λ text. text.now) texts.items) result (texts_in at bytes.now) }
{
    let mut texts = Vec::new(alloc);
    for field in Fields::new(bytes, at) {
        let field = field?;
        add_text(&mut texts, field)?;
    }
    Ok(texts)
}
