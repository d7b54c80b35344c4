//! HeaderBlocks.
ghost use Rattle.std.specs.Prelude.{◌+◌, ◌<◌, ◌^◌, length};
ghost use Rattle.wire_read.specs.Fields.{seen};
ghost use Rattle.osm_messages.specs.Answers.{Answers, Becomes};
ghost use Rattle.osm_messages.specs.Headers.{feature_step, features_in};
ghost use Rattle.osm_messages.specs.Seen.{seen_features};

use crate::fault::MessageFault;
use crate::fields::HEADER_REQUIRED_FEATURES;
use std::alloc::Global;
use wire_read::{Body, Field, Fields};

/// Appends the required feature that a field of a HeaderBlock holds.
fn add_feature<'a>(
    features: &mut Vec<(u64, &'a [u8])>,
    field: Field<'a>,
) -> Result<(), MessageFault>
    ensures { Becomes result (seen_features features.new.items) (feature_step (seen_features features.old.items) (seen field.entry)) }
{
    match field.body {
        Body::Bytes(feature) if field.number == HEADER_REQUIRED_FEATURES => {
            features.push((field.at, feature))?;
        }
        _ => {}
    }
    Ok(())
}

/// The required features of a HeaderBlock (osmformat.proto), in order, each with the offset of its field's first byte.
/// The block's first byte stands at `at`. The fault is the first one of the wire format.
pub fn read_features<'a>(
    alloc: Global,
    bytes: &'a [u8],
    at: u64,
) -> Result<Vec<(u64, &'a [u8])>, MessageFault>
    requires { at + length bytes.now < 2 ^ 64 }
    ensures { Answers (λ features. seen_features features.items) result (features_in at bytes.now) }
{
    let mut features = Vec::new(alloc);
    for field in Fields::new(bytes, at) {
        let field = field?;
        add_feature(&mut features, field)?;
    }
    Ok(features)
}
