//! A random source that draws zeros.

ghost use Rattle.std.specs.Prelude.{replicate};
ghost use Rattle.rand_core.specs.Steps.{stream_of};

use rand_core::Rng;

#[derive(Drop)]
pub struct ZeroDraw;

impl Rng for ZeroDraw {
    ghost stream = { λ _. stream_of (record {
      next_u32 = λ s. (s, s);
      next_u64 = λ s. (s, s);
      fill_bytes = λ n s. (replicate n s, s);
    }) 0 };

    fn next_u32(&mut self) -> u32 {
        0
    }

    fn next_u64(&mut self) -> u64 {
        0
    }

    fn fill_bytes(&mut self, dst: &mut [u8]) {
        dst.fill(0);
    }
}
