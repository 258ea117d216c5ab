// Meshes of any size: pillows side by side, and spindles.
use bench::bench::Bench;
use bench::level::Level;
use std::alloc::{AllocError, Global};
use tables::lent::Tables;

// Whether a level stands that a load would take.
pub fn stands_lawful(bench: &Bench<'_>) -> bool {
    match bench.tables(Level::Standing) {
        Ok(tables) => tables.judge().is_ok(),
        Err(_) => false,
    }
}

#[derive(Drop)]
pub struct Made {
    corners: Vec<u32>,
    friends: Vec<u32>,
    marks: Vec<u32>,
    starts: Vec<u32>,
}

impl Made {
    pub fn new(heap: Global) -> Made {
        Made {
            corners: Vec::new(heap),
            friends: Vec::new(heap),
            marks: Vec::new(heap),
            starts: Vec::new(heap),
        }
    }

    // Two quads back to back, whose first quad is `first` and whose first point is `point`.
    fn pillow(&mut self, first: u32, point: u32) -> Result<(), AllocError> {
        for k in [0u32, 1, 2, 3, 2, 1, 0, 3] {
            self.corners.push(point.wrapping_add(k))?;
        }
        let edge = first.wrapping_mul(2);
        for k in [2u32, 3, 0, 1] {
            self.friends.push(edge.wrapping_add(k))?;
            self.marks.push(0)?;
        }
        let corner = first.wrapping_mul(4);
        for k in 0u32..4 {
            self.starts.push(corner.wrapping_add(k))?;
        }
        Ok(())
    }

    // So many pillows side by side.
    pub fn pillows(&mut self, count: u32) -> Result<(), AllocError> {
        for i in 0..count {
            self.pillow(i.wrapping_mul(2), i.wrapping_mul(4))?;
        }
        Ok(())
    }

    // So many quads round two poles, whose first quad is `first` and whose first point is `point`: quad i has the points
    // north, i, south and i + 1. The poles have that many corners each, and the points between them two.
    pub fn spindle(&mut self, first: u32, point: u32, count: u32) -> Result<(), AllocError> {
        let north = point;
        let south = point.wrapping_add(1);
        let between = point.wrapping_add(2);
        let edge = first.wrapping_mul(2);
        let corner = first.wrapping_mul(4);
        self.starts.push(corner)?;
        self.starts.push(corner.wrapping_add(2))?;
        for i in 0..count {
            let next = if i.wrapping_add(1) == count {
                0
            } else {
                i.wrapping_add(1)
            };
            let before = if i == 0 {
                count.wrapping_sub(1)
            } else {
                i.wrapping_sub(1)
            };
            self.corners.push(north)?;
            self.corners.push(between.wrapping_add(i))?;
            self.corners.push(south)?;
            self.corners.push(between.wrapping_add(next))?;
            self.friends
                .push(edge.wrapping_add(before.wrapping_mul(2)).wrapping_add(1))?;
            self.friends.push(edge.wrapping_add(next.wrapping_mul(2)))?;
            self.marks.push(0)?;
            self.marks.push(0)?;
            self.starts
                .push(corner.wrapping_add(i.wrapping_mul(4)).wrapping_add(1))?;
        }
        Ok(())
    }

    // Every mark made this one.
    pub fn mark_all(&mut self, word: u32) {
        for mark in self.marks.iter_mut() {
            *mark = word;
        }
    }

    pub fn tables(&self) -> Tables<'_> {
        Tables {
            corners: self.corners.as_slice(),
            friends: self.friends.as_slice(),
            marks: self.marks.as_slice(),
            starts: self.starts.as_slice(),
        }
    }
}
