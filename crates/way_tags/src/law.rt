//! What the tables owe to walks over roads.

ghost use Rattle.std.specs.Prelude.{◌≡◌, ◌≢◌, ℕ, List, false, bit_and};
ghost use Rattle.osm_model.specs.declared.tags.Tag.{Tag};
ghost use Rattle.way_tags.specs.declared.directions.Dir.{Dir};
ghost use Rattle.way_tags.specs.Ways.{road_access};
ghost use Rattle.way_tags.specs.Nodes.{is_barrier_node, node_modes};

/// A node that is no barrier is closed to no mode that the access of a way can have.
pub fn open_node_law()
    ensures { (node way : List Tag) (direction : Dir) (modes : ℕ) → is_barrier_node node ≡ false → bit_and (road_access way direction) modes ≢ 0 → bit_and (node_modes node) modes ≢ 0 }
{}
