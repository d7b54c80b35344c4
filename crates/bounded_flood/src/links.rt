//! The links of a graph in flat lists.

ghost use Rattle.std.specs.Prelude.{◌≡◌, ◌↔◌, ◌<◌, ◌+◌, true, length, All};
ghost use Rattle.bounded_flood.specs.FlatGraph.{ListsFit, StartsRise, links_from};

/// A directed piece, as it begins at a junction: the junction where it ends, and the piece's number, which it shares with
/// the same piece in the other direction.
#[derive(Clone, Copy, Debug, PartialEq, Eq)]
pub struct Link {
    pub end: u32,
    pub piece: u32,
}

/// The links that begin at a junction.
pub(crate) fn links_at<'a>(starts: &[u32], links: &'a [Link], junction: u32) -> &'a [Link]
    requires lists { ListsFit starts.now links.now }
    requires inside { junction + 1 < length starts.now }
    ensures { result.now ≡ links_from starts.now links.now junction }
{
    let at = junction as usize;
    &links[starts[at] as usize..starts[at + 1] as usize]
}

/// Whether starts never fall, and none is above `most`.
fn starts_rise(starts: &[u32], most: usize) -> bool
    ensures { (result ≡ true) ↔ StartsRise starts.now most }
{
    for x in 0..starts.len() {
        if starts[x] as usize > most {
            return false;
        }
        if x > 0 && starts[x] < starts[x - 1] {
            return false;
        }
    }
    true
}

/// Whether each link ends at a junction, of which there is one less than starts.
fn ends_inside(starts: usize, links: &[Link]) -> bool
    ensures { (result ≡ true) ↔ All (λ l. l.end + 1 < starts) links.now }
{
    for link in links {
        if link.end as usize >= starts.saturating_sub(1) {
            return false;
        }
    }
    true
}

/// Whether the lists are of one graph.
pub fn lists_fit(starts: &[u32], links: &[Link]) -> bool
    ensures { (result ≡ true) ↔ ListsFit starts.now links.now }
{
    starts_rise(starts, links.len()) && ends_inside(starts.len(), links)
}
