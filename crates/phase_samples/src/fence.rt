//! A phase of two neighbours, written to be read: docs/A-PHASE.md goes through it.

ghost use Rattle.std.specs.Prelude.{◌≡◌, ◌<◌, ◌≤◌, ⊤, List, IfOk, refl};
ghost use Rattle.tile_machine.specs.FinishedBy.{finished_by};
ghost use Rattle.tile_machine.proofs.FromParts.{finished-many, finished-parts, finished-agree};
ghost use Rattle.tile_machine.specs.Late.{IfLate};
ghost use Rattle.phase_samples.specs.Beside.{height_at, height_before, with_beside};

use std::alloc::{AllocError, Global};
use tile_machine::{PartFault, Parts, Phase};

/// A post of a fence: its height, which all may read, and a field that the phase writes.
#[derive(Clone, Copy, Debug, PartialEq, Eq)]
pub struct Post {
    pub height: u32,
    /// The heights of the two neighbours, added up.
    pub beside: u64,
}

/// Each post learns the heights of its two neighbours.
pub struct Fence;

/// The height at place `j`, or 0 where the fence has no post.
fn height_of<S: Parts<u32>>(alloc: Global, parts: &mut S, j: u64) -> Result<u32, PartFault>
    ensures stays { S.stays parts.old parts.new }
    ensures lost { S.lost parts.old ≤ S.lost parts.new }
    ensures late { IfLate result (S.lost parts.old < S.lost parts.new) }
    ensures height { IfOk result (λ h. (heights : List _) → S.shows parts.old heights → h ≡ height_at heights j) }
{
    if j < parts.count() {
        let height = parts.part(alloc, j)?;
        Ok(height)
    } else {
        Ok(0)
    }
}

/// The height before place `i`.
fn height_before<S: Parts<u32>>(alloc: Global, parts: &mut S, i: u64) -> Result<u32, PartFault>
    ensures stays { S.stays parts.old parts.new }
    ensures lost { S.lost parts.old ≤ S.lost parts.new }
    ensures late { IfLate result (S.lost parts.old < S.lost parts.new) }
    ensures height { IfOk result (λ h. (heights : List _) → S.shows parts.old heights → h ≡ height_before heights i) }
{
    if i == 0 {
        Ok(0)
    } else {
        height_of(alloc, parts, i - 1)
    }
}

impl Phase for Fence {
    type Tile = Post;

    type Part = u32;

    ghost readable = { λ _ post. post.height };

    ghost fits = { λ _ _. ⊤ };

    ghost finished = { λ _ world. finished_by (λ post. post.height) with_beside world };

    ghost as_many = { λ p world fits. finished-many (λ post. post.height) with_beside world };

    ghost same_parts = { λ p world fits. finished-parts (λ post. post.height) with_beside (λ i heights post. refl) world };

    ghost from_parts = { λ p v w i fits_v fits_w here parts. finished-agree (λ post. post.height) with_beside v w i here parts };

    fn part(&self, _alloc: Global, tile: &Post) -> Result<u32, AllocError> {
        Ok(tile.height)
    }

    fn copy(&self, _alloc: Global, tile: &Post) -> Result<Post, AllocError> {
        Ok(*tile)
    }

    fn rewrite<S: Parts<u32>>(
        &self,
        alloc: Global,
        i: u64,
        tile: Post,
        parts: &mut S,
    ) -> Result<Post, PartFault> {
        let _posts = parts.count();
        let left = height_before(alloc, parts, i)?;
        let right = height_of(alloc, parts, i + 1)?;
        Ok(Post {
            height: tile.height,
            beside: left as u64 + right as u64,
        })
    }
}
