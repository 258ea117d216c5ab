// Where a corner lies on a texture: two numbers, each finite and within 65,536 either way.
// The type stands apart from the functions on it, as in coordinates.rt.
ghost use Rattle.std.specs.Prelude.{T};
ghost use Rattle.attributes.specs.Halfway.{lawful};

pub mod middle;

#[derive(Clone, Copy, PartialEq, Debug)]
pub struct Texture {
    u: f32,
    v: f32,
    ghost uok: { T (lawful u) },
    ghost vok: { T (lawful v) },
}
