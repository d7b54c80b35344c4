//! The sizes of the entries and the texts of a tile.
ghost use Rattle.std.specs.Prelude.{◌≡◌, ◌<◌, ◌^◌, length, IfOk, IfErr};
ghost use Rattle.edge_info.specs.Entries.{infos_bytes};
ghost use Rattle.edge_info.specs.Texts.{texts_bytes};
ghost use Rattle.tile_finish.specs.Finishing.{AreShort, IsSectionFault};

use edge_info::{Infos, Texts, texts_size};
use osm_model::TagText;
use std::alloc::AllocError;
use tile_bytes::WriteFault;

/// The number of the bytes of entries. Where 64 bits can't say it, no memory holds them.
fn bytes_of_infos(infos: &Infos) -> Result<u64, AllocError>
    ensures { IfOk result (λ size. size ≡ length (infos_bytes infos.now)) }
{
    u64::try_from(infos.size()).map_err(|_| AllocError)
}

/// The number of the bytes of texts. Where 64 bits can't say it, no memory holds them.
fn bytes_of_texts(texts: &[TagText]) -> Result<u64, AllocError>
    ensures { IfOk result (λ size. size ≡ length (texts_bytes texts.now)) }
{
    u64::try_from(texts_size(texts)).map_err(|_| AllocError)
}

/// Tells which of these numbers of bytes, of entries or else of texts, is above 4,294,967,295.
fn section_fault(infos: u64, texts: u64) -> Result<(), WriteFault>
    ensures infos { IfOk result (λ _. infos < 2 ^ 32) }
    ensures texts { IfOk result (λ _. texts < 2 ^ 32) }
    ensures fault { IfErr result (λ fault. IsSectionFault infos texts fault) }
{
    let most = u64::from(u32::MAX);
    if infos > most {
        return Err(WriteFault::Section { count: infos });
    }
    if texts > most {
        return Err(WriteFault::Section { count: texts });
    }
    Ok(())
}

/// Tells whether the entries, or else the texts, have more than 4,294,967,295 bytes.
pub(crate) fn check_sections(infos: &Infos, texts: &Texts) -> Result<(), WriteFault>
    ensures short { IfOk result (λ _. AreShort infos.now texts.now) }
    ensures fault { IfErr result (λ fault. IsSectionFault (length (infos_bytes infos.now)) (length (texts_bytes texts.now)) fault) }
{
    let infos = bytes_of_infos(infos)?;
    let texts = bytes_of_texts(texts.as_slice())?;
    section_fault(infos, texts)
}
