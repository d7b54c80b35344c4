//! The places of names among the texts of a tile.
ghost use Rattle.std.specs.Prelude.{◌≡◌, ◌++◌, ◌∷◌, [], false, length, map, IfOk, OnOk};
ghost use Rattle.std.specs.List.{list_any};
ghost use Rattle.std.specs.Str.{bytes_eq};
ghost use Rattle.tile_infos.specs.TileTexts.{with_text, texts_once, text_place};
ghost use Rattle.tile_infos.specs.TextSearch.{KnowsPlaces};

use osm_model::TagText;
use road_pieces::NamesView;
use std::alloc::{AllocError, Global};
use std::collections::BTreeMap;

/// A number of texts in 32 bits. It is never greater: a list of pieces numbers the texts of its names in 32 bits.
fn in_32_bits(count: usize) -> Result<u32, AllocError>
    ensures { IfOk result (λ n. n ≡ count) }
{
    u32::try_from(count).map_err(|_| AllocError)
}

/// Puts a text behind the others, with its place.
fn add_text<'a>(
    alloc: Global,
    text: &'a str,
    known: &mut BTreeMap<&'a str, u32>,
    texts: &mut Vec<TagText>,
) -> Result<u32, AllocError>
    requires known { KnowsPlaces known.old texts.old.items }
    requires new { list_any (bytes_eq text.now) texts.old.items ≡ false }
    ensures known { OnOk result (KnowsPlaces known.new texts.new.items) }
    ensures texts { OnOk result (texts.new.items ≡ texts.old.items ++ text.now ∷ []) }
    ensures place { IfOk result (λ place. place ≡ text_place texts.new.items text.now) }
{
    let place = in_32_bits(texts.len())?;
    texts.push(TagText::from_str(alloc, text)?)?;
    known.insert(text, place)?;
    Ok(place)
}

/// The place of a text. One that is new is put behind the others.
fn place_of_text<'a>(
    alloc: Global,
    text: &'a str,
    known: &mut BTreeMap<&'a str, u32>,
    texts: &mut Vec<TagText>,
) -> Result<u32, AllocError>
    requires { KnowsPlaces known.old texts.old.items }
    ensures known { OnOk result (KnowsPlaces known.new texts.new.items) }
    ensures texts { OnOk result (texts.new.items ≡ with_text texts.old.items text.now) }
    ensures place { IfOk result (λ place. place ≡ text_place texts.new.items text.now) }
{
    match known.get(text).copied() {
        Some(place) => Ok(place),
        None => add_text(alloc, text, known, texts),
    }
}

/// Writes down the places of a piece's names. Those that are new are put behind the other texts.
pub(crate) fn put_names<'a>(
    alloc: Global,
    names: &NamesView<'a>,
    known: &mut BTreeMap<&'a str, u32>,
    texts: &mut Vec<TagText>,
    places: &mut Vec<u32>,
) -> Result<(), AllocError>
    requires { KnowsPlaces known.old texts.old.items }
    ensures known { OnOk result (KnowsPlaces known.new texts.new.items) }
    ensures texts { OnOk result (texts.new.items ≡ texts_once texts.old.items names.now) }
    ensures places { OnOk result (places.new.items ≡ map (text_place texts.new.items) names.now) }
{
    places.clear();
    for i in 0..names.len() {
        places.push(place_of_text(alloc, names.at(i), known, texts)?)?;
    }
    Ok(())
}
