//! The numbers by which tiles are found.
ghost use Rattle.std.specs.Prelude.{◌≡◌, ◌≢◌, ◌<◌, ℕ, length, slice_index, IfSome, IfNone};
ghost use Rattle.tile_walks.specs.Keys.{key_of, Rise};

use graph_id::GraphId;

/// The tile of a GraphId as one number: its level above its number.
pub(crate) fn key(id: GraphId) -> u32
    ensures { result ≡ key_of id }
{
    (id.level() << 22) + id.tile()
}

/// The place of a key among keys that rise.
pub(crate) fn place_of(keys: &[u32], key: u32) -> Option<usize>
    requires { Rise keys.now }
    ensures some { IfSome result (λ i. (i < length keys.now) × (slice_index keys.now i ≡ key)) }
    ensures none { IfNone result ((k : ℕ) → k < length keys.now → slice_index keys.now k ≢ key) }
{
    keys.binary_search(&key).ok()
}
