//! `cut` beside the plain slow program, on small extracts that are drawn at random.

ghost use Rattle.std.specs.Prelude.{◌<◌};

use crate::plain::{plain_junctions, plain_missing, plain_pieces, plain_runs, plain_ways};
use osm_model::{
    Extract, Names, Nodes, OsmNode, OsmWay, Refs, Relations, Tag, TagText, Tags, Ways,
};
use road_pieces::{NamesView, Piece, PieceView, Pieces, Roads, cut};
use std::alloc::{AllocError, Global};
use std::test::Fail;

/// Numbers in an order that looks like chance and is the same in each run.
#[derive(Drop)]
struct Dice {
    state: u64,
}

impl Dice {
    /// A number below `sides`.
    fn roll(&mut self, sides: u64) -> u64
        requires { 0 < sides }
        ensures { result < sides }
    {
        self.state = self
            .state
            .wrapping_mul(6_364_136_223_846_793_005)
            .wrapping_add(1_442_695_040_888_963_407);
        (self.state >> 33) % sides
    }

    /// Yes, once in so many rolls.
    fn once_in(&mut self, sides: u64) -> bool
        requires { 0 < sides }
    {
        self.roll(sides) == 0
    }
}

/// Values of `highway`, and two that make no road.
const HIGHWAYS: [&str; 25] = [
    "motorway",
    "motorway_link",
    "trunk",
    "trunk_link",
    "primary",
    "primary_link",
    "secondary",
    "secondary_link",
    "tertiary",
    "tertiary_link",
    "unclassified",
    "residential",
    "living_street",
    "service",
    "road",
    "track",
    "path",
    "cycleway",
    "footway",
    "pedestrian",
    "steps",
    "bridleway",
    "raceway",
    "",
    "residential",
];

/// What else is said of ways.
const WAY_TAGS: [(&str, &str); 23] = [
    ("area", "yes"),
    ("area", "no"),
    ("oneway", "yes"),
    ("oneway", "true"),
    ("oneway", "1"),
    ("oneway", "-1"),
    ("oneway", "reverse"),
    ("oneway", "no"),
    ("oneway", "false"),
    ("oneway", "0"),
    ("oneway", "reversible"),
    ("junction", "roundabout"),
    ("junction", "circular"),
    ("junction", "jughandle"),
    ("oneway:bicycle", "no"),
    ("oneway:bus", "no"),
    ("oneway:psv", "no"),
    ("oneway:bicycle", "yes"),
    ("name", "Lange Straße"),
    ("name", ""),
    ("name", "B 1"),
    ("ref", "B 1"),
    ("ref", ""),
];

/// The keys of access, and their values, with two that are unknown.
const ACCESS_KEYS: [&str; 9] = [
    "access",
    "vehicle",
    "motor_vehicle",
    "motorcar",
    "hgv",
    "psv",
    "bus",
    "bicycle",
    "foot",
];

const ACCESS_VALUES: [&str; 16] = [
    "yes",
    "designated",
    "permissive",
    "destination",
    "customers",
    "delivery",
    "official",
    "public",
    "no",
    "private",
    "agricultural",
    "forestry",
    "use_sidepath",
    "dismount",
    "unknown",
    "",
];

/// Values of `barrier`.
const BARRIERS: [&str; 10] = [
    "bollard",
    "block",
    "cycle_barrier",
    "bus_trap",
    "stile",
    "turnstile",
    "kissing_gate",
    "gate",
    "no",
    "",
];

/// Which entries of the lists above were drawn.
#[derive(Drop)]
struct Drawn {
    highways: [bool; 25],
    way_tags: [bool; 23],
    access_keys: [bool; 9],
    access_values: [bool; 16],
    barriers: [bool; 10],
}

impl Drawn {
    fn none() -> Drawn {
        Drawn {
            highways: [false; 25],
            way_tags: [false; 23],
            access_keys: [false; 9],
            access_values: [false; 16],
            barriers: [false; 10],
        }
    }

    fn are_all(&self) -> bool {
        self.highways.iter().all(|drawn| *drawn)
            && self.way_tags.iter().all(|drawn| *drawn)
            && self.access_keys.iter().all(|drawn| *drawn)
            && self.access_values.iter().all(|drawn| *drawn)
            && self.barriers.iter().all(|drawn| *drawn)
    }
}

/// Puts a tag after the others.
fn add_tag(alloc: Global, tags: &mut Tags, key: &str, value: &str) -> Result<(), AllocError> {
    tags.push(Tag {
        key: TagText::from_str(alloc, key)?,
        value: TagText::from_str(alloc, value)?,
    })
}

/// A tag of access.
fn add_access(
    alloc: Global,
    dice: &mut Dice,
    drawn: &mut Drawn,
    tags: &mut Tags,
) -> Result<(), AllocError> {
    let key = dice.roll(9) as usize;
    let value = dice.roll(16) as usize;
    drawn.access_keys[key] = true;
    drawn.access_values[value] = true;
    add_tag(alloc, tags, ACCESS_KEYS[key], ACCESS_VALUES[value])
}

/// The tags of a node: of one in four a barrier, maybe with access; of some others access alone.
fn draw_node_tags(alloc: Global, dice: &mut Dice, drawn: &mut Drawn) -> Result<Tags, AllocError> {
    let mut tags = Tags::new(alloc);
    if dice.once_in(4) {
        let i = dice.roll(10) as usize;
        drawn.barriers[i] = true;
        add_tag(alloc, &mut tags, "barrier", BARRIERS[i])?;
    }
    for _ in 0..dice.roll(3) {
        add_access(alloc, dice, drawn, &mut tags)?;
    }
    Ok(tags)
}

/// The tags of a way: a value of `highway` among some others, and in one of eight none.
fn draw_way_tags(alloc: Global, dice: &mut Dice, drawn: &mut Drawn) -> Result<Tags, AllocError> {
    let mut tags = Tags::new(alloc);
    for _ in 0..dice.roll(3) {
        let i = dice.roll(23) as usize;
        drawn.way_tags[i] = true;
        add_tag(alloc, &mut tags, WAY_TAGS[i].0, WAY_TAGS[i].1)?;
    }
    if !dice.once_in(8) {
        let i = dice.roll(25) as usize;
        drawn.highways[i] = true;
        add_tag(alloc, &mut tags, "highway", HIGHWAYS[i])?;
    }
    for _ in 0..dice.roll(3) {
        add_access(alloc, dice, drawn, &mut tags)?;
    }
    Ok(tags)
}

/// Some of the nodes 0 to 7.
fn draw_nodes(alloc: Global, dice: &mut Dice, drawn: &mut Drawn) -> Result<Nodes, AllocError> {
    let mut nodes = Nodes::new(alloc);
    for id in 0..8 {
        if dice.once_in(4) {
            continue;
        }
        let tags = draw_node_tags(alloc, dice, drawn)?;
        nodes.push(&OsmNode {
            id,
            lat: dice.roll(100_000) as i32,
            lon: dice.roll(100_000) as i32,
            tags,
        })?;
    }
    Ok(nodes)
}

/// Up to four ways of up to nine refs each.
fn draw_ways(alloc: Global, dice: &mut Dice, drawn: &mut Drawn) -> Result<Ways, AllocError> {
    let mut ways = Ways::new(alloc);
    for id in 0..dice.roll(5) {
        let mut refs = Refs::new(alloc);
        for _ in 0..dice.roll(10) {
            refs.push(dice.roll(8) as i64)?;
        }
        let tags = draw_way_tags(alloc, dice, drawn)?;
        ways.push(&OsmWay {
            id: id as i64,
            tags,
            refs,
        })?;
    }
    Ok(ways)
}

/// Whether two lists of names are the same.
fn same_names(ones: &NamesView<'_>, others: &Names) -> bool {
    let others = others.as_slice();
    if ones.len() != others.len() {
        return false;
    }
    for i in 0..others.len() {
        if ones.at(i) != others[i].as_str() {
            return false;
        }
    }
    true
}

/// Whether two pieces have the same fields.
fn same_piece(one: &PieceView<'_>, other: &Piece) -> bool {
    one.key() == other.key
        && one.start() == other.start
        && one.end() == other.end
        && one.shape() == other.shape.as_slice()
        && one.cm() == other.cm
        && one.class() == other.class
        && one.forward() == other.forward
        && one.backward() == other.backward
        && same_names(one.names(), &other.names)
}

fn same_pieces(ones: &Pieces, others: &[Piece]) -> bool {
    if ones.len() != others.len() {
        return false;
    }
    for i in 0..others.len() {
        if !same_piece(&ones.at(i), &others[i]) {
            return false;
        }
    }
    true
}

/// Whether these are the roads that the plain program finds.
fn are_plain(alloc: Global, extract: &Extract, roads: &Roads) -> Result<bool, AllocError> {
    let junctions = plain_junctions(alloc, extract)?;
    let pieces = plain_pieces(alloc, extract)?;
    Ok(
        roads.junctions.as_slice() == junctions.as_slice()
            && same_pieces(&roads.pieces, pieces.as_slice())
            && roads.ways == plain_ways(extract)
            && roads.runs == plain_runs(alloc, extract)?
            && roads.missing == plain_missing(extract),
    )
}

#[test]
fn cut_agrees_with_the_plain_program(rt: HostRuntime) -> Result<(), Fail> {
    let alloc = rt.alloc();
    let mut dice = Dice { state: 1 };
    let mut drawn = Drawn::none();
    let mut pieces = 0usize;
    for number in 0..2_000 {
        let nodes = draw_nodes(alloc, &mut dice, &mut drawn)?;
        let ways = draw_ways(alloc, &mut dice, &mut drawn)?;
        let extract = Extract::of_lists(nodes, ways, Relations::new(alloc)).ok_or("no extract")?;
        let roads = cut(alloc, &extract).ok().ok_or("refused")?;
        assert!(rt; are_plain(alloc, &extract, &roads)?, "at {number}");
        pieces = pieces.saturating_add(roads.pieces.len());
    }
    // the extracts aren't empty ones, and each entry of the lists was drawn
    assert!(rt; pieces > 2_000 && drawn.are_all(), "only {pieces} pieces");
    Ok(())
}
