// The four tables of a mesh, lent by whoever holds them. Nothing is known of them: they may have any lengths and any words.

// A mesh has at least and at most so many quads.
pub const FEWEST_QUADS: usize = 2;

pub const MOST_QUADS: usize = 1048576;

#[derive(Clone, Copy, PartialEq, Eq, Debug)]
pub struct Tables<'a> {
    // the point of each corner
    pub corners: &'a [u32],
    // the friend of each off-edge
    pub friends: &'a [u32],
    // the mark word of each off-edge
    pub marks: &'a [u32],
    // the start of each point
    pub starts: &'a [u32],
}
