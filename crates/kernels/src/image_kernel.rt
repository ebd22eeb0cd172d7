use std::marker::Model;
use xom_machine::{Chunk, Kernel, View};
use xom_model::outcome::Turn;

/// A kernel that is code in RAM: each of its turns is the instruction at the null pair.
#[derive(Drop)]
pub struct ImageKernel;

impl Model for ImageKernel {
    ghost Value = { Unit {0} };

    ghost view = { λ _. tt };
}

impl ImageKernel {
    /// The kernel. All that it knows stands in RAM and in the cells.
    pub fn new() -> ImageKernel {
        ImageKernel
    }
}

impl Kernel for ImageKernel {
    ghost use Rattle.kernels.specs.Turns.{image_told};

    ghost told = { image_told };

    fn next(&mut self, _view: &View, _chunk: &mut Chunk) -> Turn {
        Turn::Null
    }
}
