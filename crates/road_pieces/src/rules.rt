//! What tags say of roads, by the tables of `way_tags`.

ghost use Rattle.std.specs.Prelude.{◌≡◌, IfOk};
ghost use Rattle.road_pieces.specs.Rules.{is_routable, is_barrier, class_of, forward_access, backward_access, node_access, names_of};

use osm_model::{Names, TagsView};
use std::alloc::{AllocError, Global};
use way_tags::{Dir, RoadTags, access_of, names, read_road};

/// Whether a way with these tags is part of the roads.
#[tactic(auto, unfolding(crate::specs::Rules::is_routable))]
pub(crate) fn is_routable(tags: &TagsView<'_>) -> bool
    ensures { result ≡ is_routable tags.now }
{
    way_tags::class_of(tags).is_some()
}

/// Whether a node with these tags is a barrier.
#[tactic(auto, unfolding(crate::specs::Rules::is_barrier))]
pub(crate) fn is_barrier(tags: &TagsView<'_>) -> bool
    ensures { result ≡ is_barrier tags.now }
{
    way_tags::is_barrier(tags)
}

/// The class of a routable way, from 0, motorway, to 7, and the modes that may use it in each direction, with one
/// pass over its tags.
#[tactic(auto, unfolding(crate::specs::Rules::class_of, crate::specs::Rules::forward_access, crate::specs::Rules::backward_access))]
pub(crate) fn read_way(tags: &TagsView<'_>) -> RoadTags
    ensures class { result.class ≡ class_of tags.now }
    ensures forward { result.forward ≡ forward_access tags.now }
    ensures backward { result.backward ≡ backward_access tags.now }
{
    match read_road(tags) {
        Some(road) => road,
        // no piece is made of such a way
        None => RoadTags {
            class: 7,
            forward: access_of(tags, Dir::Forward),
            backward: access_of(tags, Dir::Backward),
        },
    }
}

/// The modes that may pass a node.
#[tactic(auto, unfolding(crate::specs::Rules::node_access))]
pub(crate) fn node_access(tags: &TagsView<'_>) -> u16
    ensures { result ≡ node_access tags.now }
{
    way_tags::node_access(tags)
}

/// The names of a way.
#[tactic(auto, unfolding(crate::specs::Rules::names_of))]
pub(crate) fn names_of(alloc: Global, tags: &TagsView<'_>) -> Result<Names, AllocError>
    ensures { IfOk result (λ names. names ≡ names_of tags.now) }
{
    names(alloc, tags)
}
