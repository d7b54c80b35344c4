//! Which keys are kept.
ghost use Rattle.std.specs.Prelude.{◌≡◌};
ghost use Rattle.osm_objects.specs.KeptKeys.{is_key_among, road_keys, access_keys, relation_keys, is_kept};

fn is_road_key(key: &[u8]) -> bool
    ensures { result ≡ is_key_among key.now road_keys }
{
    key == b"highway".as_slice()
        || key == b"area".as_slice()
        || key == b"oneway".as_slice()
        || key == b"oneway:bicycle".as_slice()
        || key == b"oneway:bus".as_slice()
        || key == b"oneway:psv".as_slice()
        || key == b"junction".as_slice()
        || key == b"name".as_slice()
        || key == b"ref".as_slice()
}

fn is_access_key(key: &[u8]) -> bool
    ensures { result ≡ is_key_among key.now access_keys }
{
    key == b"access".as_slice()
        || key == b"vehicle".as_slice()
        || key == b"motor_vehicle".as_slice()
        || key == b"motorcar".as_slice()
        || key == b"hgv".as_slice()
        || key == b"psv".as_slice()
        || key == b"bus".as_slice()
        || key == b"bicycle".as_slice()
        || key == b"foot".as_slice()
        || key == b"barrier".as_slice()
}

fn is_relation_key(key: &[u8]) -> bool
    ensures { result ≡ is_key_among key.now relation_keys }
{
    key == b"type".as_slice() || key == b"except".as_slice() || key == b"restriction".as_slice()
}

/// Whether tags with this key are kept.
#[tactic(auto, unfolding(crate::specs::KeptKeys::is_kept))]
pub fn is_kept(key: &[u8]) -> bool
    ensures { result ≡ is_kept key.now }
{
    is_road_key(key)
        || is_access_key(key)
        || is_relation_key(key)
        || key.starts_with(b"restriction:".as_slice())
}
