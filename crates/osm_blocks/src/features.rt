//! The required features of a header block.

ghost use Rattle.std.specs.Prelude.{◌≡◌, ◌+◌, ◌<◌, ◌^◌, false, length, map, IfErr};
ghost use Rattle.std.specs.Option.{option_map};
ghost use Rattle.osm_blocks.specs.declared.fault.ExtractFault.TheVariants.{Feature};
ghost use Rattle.osm_blocks.specs.Faults.{is_read};
ghost use Rattle.osm_blocks.specs.Features.{is_known, first_unknown, shown};
ghost use Rattle.osm_blocks.specs.Extracts.{header_in};
ghost use Rattle.osm_blocks.specs.Steps.{Becomes, IsOr};

use crate::fault::{ExtractFault, spelled};
use osm_messages::read_features;
use osm_model::TagText;
use std::alloc::Global;
use std::str;

/// Whether the feature is one that is read.
fn is_known(feature: &[u8]) -> bool
    ensures { result ≡ is_known feature.now }
{
    feature == b"OsmSchema-V0.6".as_slice() || feature == b"DenseNodes".as_slice()
}

/// The first feature that isn't, with the place of its field.
fn first_unknown<'a>(features: &[(u64, &'a [u8])]) -> Option<(u64, &'a [u8])>
    ensures { option_map (λ feature. (feature.0, feature.1.now)) result
        ≡ first_unknown (map (λ feature. (feature.0, feature.1.now)) features.now) }
{
    for feature in features {
        if !is_known(feature.1) {
            return Some(*feature);
        }
    }
    None
}

/// The text of a feature, or `?` where its bytes aren't UTF-8.
fn shown(feature: &[u8]) -> &str
    ensures { result.now ≡ shown feature.now }
{
    match str::from_utf8(feature) {
        Ok(text) => text,
        Err(_) => "?",
    }
}

/// The fault of a feature that isn't read.
fn unknown(alloc: Global, at: u64, feature: &[u8]) -> ExtractFault
    ensures fault { IsOr result (Feature at (shown feature.now)) }
    ensures no_read { is_read result ≡ false }
{
    match TagText::from_str(alloc, shown(feature)) {
        Ok(text) => ExtractFault::Feature { at, text },
        Err(_) => ExtractFault::OutOfMemory,
    }
}

/// Looks through a header block, whose first byte stands at `at`: each feature that it requires has to be read.
pub fn check_header(alloc: Global, bytes: &[u8], at: u64) -> Result<(), ExtractFault>
    requires { at + length bytes.now < 2 ^ 64 }
    ensures header { Becomes result tt (header_in at bytes.now) }
    ensures no_read { IfErr result (λ fault. is_read fault ≡ false) }
{
    let features = match read_features(alloc, bytes, at) {
        Ok(features) => features,
        Err(fault) => return Err(spelled(fault)),
    };
    match first_unknown(&features) {
        Some((at, feature)) => Err(unknown(alloc, at, feature)),
        None => Ok(()),
    }
}
