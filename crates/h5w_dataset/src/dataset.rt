//! A dataset that can be read.
ghost use Rattle.std.specs.Prelude.{◌≡◌, ◌*◌, ◌^◌, ◌<◌};
ghost use Rattle.std.specs.Option.{ForSome};
ghost use Rattle.h5w_model.specs.Messages.{index_of, IsIntType};
ghost use Rattle.h5w_types.specs.Fields.{shape_of, int_type_of};

use h5w_layout::{Fill, Layout};
use h5w_types::{IntType, Shape};

/// A dataset that can be read.
#[derive(Clone, Copy)]
pub struct Dataset {
    pub shape: Shape,
    pub int_type: IntType,
    pub fill: Fill,
    pub layout: Layout,
    ghost tall: { 0 < layout.chunk.0 },
    ghost wide: { 0 < layout.chunk.1 },
    ghost flat: { layout.chunk.0 * layout.chunk.1 < 2 ^ 32 },
    ghost small: { layout.chunk.0 * layout.chunk.1 * int_type.size < 2 ^ 32 },
    ghost typed: { IsIntType (int_type_of int_type) },
    ghost filled: { ForSome fill.value (λ c. c.size ≡ int_type.size) },
    ghost indexed: { layout.index ≡ index_of (shape_of shape) },
    ghost line: { shape.rank ≡ 1 → (shape.cols ≡ 1) × (layout.chunk.1 ≡ 1) },
}
