//! Writing entries and texts.
ghost use Rattle.std.specs.Prelude.{◌≡◌, ◌≤◌, ◌+◌, ◌^◌, ◌++◌, ◌∷◌, [], length, OnOk};
ghost use Rattle.section_grammar.specs.WordBytes.{word_bytes, half_bytes, halves_bytes};
ghost use Rattle.edge_info.specs.Entries.{key_bytes, point_bytes, counted_bytes, info_bytes, infos_bytes};
ghost use Rattle.edge_info.specs.Texts.{text_bytes, texts_bytes};
ghost use Rattle.std.specs.List.{flat_map};

use crate::infos::{InfoView, Infos};
use fixed_geo::Point;
use osm_model::{PieceKey, TagText};
use section_grammar::{push_count, push_half};
use std::alloc::AllocError;

/// The bytes of a word and of two halves, and the lowest four of a number.
#[inline]
fn front_cells(way: u64, run: u32, piece: u32, count: usize) -> [u8; 20]
    ensures { result ≡ (word_bytes way ++ (half_bytes run ++ half_bytes piece)) ++ half_bytes count }
{
    let [w0, w1, w2, w3, w4, w5, w6, w7] = way.to_le_bytes();
    let [r0, r1, r2, r3] = run.to_le_bytes();
    let [p0, p1, p2, p3] = piece.to_le_bytes();
    let [c0, c1, c2, c3, _, _, _, _] = (count as u64).to_le_bytes();
    [
        w0, w1, w2, w3, w4, w5, w6, w7, r0, r1, r2, r3, p0, p1, p2, p3, c0, c1, c2, c3,
    ]
}

/// Puts a key and a number of points behind the bytes, all at once. Of a number of 2^32 or more the lowest four bytes
/// stand there.
#[tactic(auto, unfolding(crate::specs::Entries::key_bytes))]
fn push_front(out: &mut Vec<u8>, key: PieceKey, count: usize) -> Result<(), AllocError>
    ensures { OnOk result (out.new.items ≡ out.old.items ++ (key_bytes key ++ half_bytes count)) }
{
    out.extend_from_slice(&front_cells(key.way.cast_unsigned(), key.run, key.piece, count))
}

/// The bytes of two halves.
#[inline]
fn pair_cells(first: u32, second: u32) -> [u8; 8]
    ensures { result ≡ half_bytes first ++ half_bytes second }
{
    let [a0, a1, a2, a3] = first.to_le_bytes();
    let [b0, b1, b2, b3] = second.to_le_bytes();
    [a0, a1, a2, a3, b0, b1, b2, b3]
}

/// Puts a point behind the bytes, all at once.
#[inline]
#[tactic(auto, unfolding(crate::specs::Entries::point_bytes))]
fn push_point(out: &mut Vec<u8>, point: Point) -> Result<(), AllocError>
    ensures { OnOk result (out.new.items ≡ out.old.items ++ point_bytes point) }
{
    out.extend_from_slice(&pair_cells(point.lat.cast_unsigned(), point.lon.cast_unsigned()))
}

/// Puts points behind the bytes.
fn push_points(out: &mut Vec<u8>, points: &[Point]) -> Result<(), AllocError>
    ensures { OnOk result (out.new.items ≡ out.old.items ++ flat_map point_bytes points.now) }
{
    for point in points {
        push_point(out, *point)?;
    }
    Ok(())
}

/// Puts names behind the bytes.
fn push_names(out: &mut Vec<u8>, names: &[u32]) -> Result<(), AllocError>
    ensures { OnOk result (out.new.items ≡ out.old.items ++ halves_bytes names.now) }
{
    for name in names {
        push_half(out, *name)?;
    }
    Ok(())
}

/// Puts an entry behind the bytes.
#[tactic(auto, unfolding(crate::specs::Entries::info_bytes))]
fn push_info(out: &mut Vec<u8>, info: &InfoView<'_>) -> Result<(), AllocError>
    ensures { OnOk result (out.new.items ≡ out.old.items ++ info_bytes info.now) }
{
    push_front(out, info.key(), info.shape().len())?;
    push_points(out, info.shape())?;
    push_count(out, info.texts().len())?;
    push_names(out, info.texts())
}

/// Puts entries behind the bytes. Of a number of points or names of 2^32 or more the lowest four bytes stand there, so
/// that its entry has no spelling, and all entries have more bytes than 32 bits can say.
pub fn push_infos(out: &mut Vec<u8>, infos: &Infos) -> Result<(), AllocError>
    ensures { OnOk result (out.new.items ≡ out.old.items ++ infos_bytes infos.now) }
{
    for i in 0..infos.len() {
        push_info(out, &infos.at(i))?;
    }
    Ok(())
}

/// Puts a text behind the bytes.
#[tactic(auto, unfolding(crate::specs::Texts::text_bytes))]
fn push_text(out: &mut Vec<u8>, text: &str) -> Result<(), AllocError>
    ensures { OnOk result (out.new.items ≡ out.old.items ++ text_bytes text.now) }
{
    push_count(out, text.len())?;
    out.extend_from_slice(text.as_bytes())
}

/// Puts texts behind the bytes. Of a length of 2^32 or more the lowest four bytes stand there.
pub fn push_texts(out: &mut Vec<u8>, texts: &[TagText]) -> Result<(), AllocError>
    ensures { OnOk result (out.new.items ≡ out.old.items ++ texts_bytes texts.now) }
{
    for text in texts {
        push_text(out, text.as_str())?;
    }
    Ok(())
}

/// The number of the bytes of a text: four say its length.
fn text_size(text: &TagText) -> u128
    ensures value { result ≡ 4 + length text.now }
    ensures bound { result ≤ 2 ^ 64 + 3 }
{
    4 + text.len() as u128
}

/// The number of the bytes of texts. The sum fits, since there are fewer than 2^63 texts, and each has at most 2^64 + 3
/// bytes.
pub fn texts_size(texts: &[TagText]) -> u128
    ensures { result ≡ length (texts_bytes texts.now) }
{
    let mut size: u128 = 0;
    for text in texts {
        size += text_size(text);
    }
    size
}
