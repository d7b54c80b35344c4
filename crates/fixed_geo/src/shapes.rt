//! Lists of points.
ghost use Rattle.std.specs.Prelude.{◌≡◌, ◌↔◌, [], ◌∷◌, ◌++◌, length, IsTrue, OnOk, OnErr, slice_get};

use crate::points::Point;
use std::alloc::{AllocError, Global};
use std::marker::Model;

/// A list of points in order, as the course of a road. Contracts see it as that list.
#[derive(Debug, Drop)]
pub struct Shape {
    points: Vec<Point>,
}

impl Model for Shape {
    ghost use Rattle.std.specs.Prelude.{List};
    ghost use Rattle.fixed_geo.specs.declared.points.Point.{Point};

    ghost Value = { List Point };

    ghost view = { λ s. s.points.items };
}

impl Shape {
    /// The empty list, which takes no memory; `alloc` serves the points that are pushed later.
    pub fn new(alloc: Global) -> Shape
        ensures { result ≡ [] }
    {
        Shape {
            points: Vec::new(alloc),
        }
    }

    /// The points of `points`, without taking memory.
    pub fn from_vec(points: Vec<Point>) -> Shape
        ensures { result ≡ points.items }
    {
        Shape { points }
    }

    /// The points as a `Vec`, without taking memory.
    pub fn into_vec(self) -> Vec<Point>
        ensures { result.items ≡ self }
    {
        let Shape { points } = self;
        points
    }

    /// How many points there are.
    pub fn len(&self) -> usize
        ensures { result ≡ length self.now }
    {
        self.points.len()
    }

    /// Whether there is no point.
    pub fn is_empty(&self) -> bool
        ensures { IsTrue result ↔ (self.now ≡ []) }
    {
        self.points.is_empty()
    }

    /// The point at place `i` from 0 on, and `None` past the last one.
    pub fn get(&self, i: usize) -> Option<Point>
        ensures { result ≡ slice_get self.now i }
    {
        self.points.get(i).copied()
    }

    /// The points as a slice.
    pub fn as_slice(&self) -> &[Point]
        ensures { result.now ≡ self.now }
    {
        self.points.as_slice()
    }

    /// Puts a point after the last one. Without memory the list stays as it was.
    pub fn push(&mut self, point: Point) -> Result<(), AllocError>
        ensures ok { OnOk result (self.new ≡ self.old ++ point ∷ []) }
        ensures err { OnErr result (self.new ≡ self.old) }
    {
        self.points.push(point)?;
        Ok(())
    }
}
