//! The limits as digits, so that a wrong constant is refused though code and definitions cite it.

ghost use Rattle.std.specs.Prelude.{◌≡◌};
ghost use Rattle.pbf_blobs.specs.declared.limits.TheConstants.{HEADER_LIMIT, MOST_BLOB, MOST_INPUT};

/// 64 KiB, 32 MiB and 64 bytes, 512 MiB.
pub fn worked_limits()
    ensures header { HEADER_LIMIT ≡ 65_536 }
    ensures blob { MOST_BLOB ≡ 33_554_496 }
    ensures input { MOST_INPUT ≡ 536_870_912 }
{}
