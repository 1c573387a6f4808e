//! Stored closures.
ghost use Rattle.std.specs.Prelude.{◌≡◌};
ghost use Rattle.yt_graph.specs.Meaning.{op_value};
ghost use Rattle.yt_ops.specs.Values.{GivesValuesOf};

/// What an operator does: a closure that the host supplies. Where an operator takes one number, the second is 0.
pub type OpBody = Box<dyn Fn(i64, i64) -> i64>;

/// A closure beside the code whose values it gives. It may be called on all numbers.
#[derive(Drop)]
pub(crate) struct Stored {
    pub(crate) code: u32,
    pub(crate) body: OpBody,
    ghost callable: { OpBody.IsAlwaysCallable body },
    ghost gives: { GivesValuesOf code (OpBody.post body) },
}

impl Stored {
    /// What the closure answers.
    pub(crate) fn call(&self, x: i64, y: i64) -> i64
        ensures { result ≡ op_value self.now.code x y }
    {
        (self.body)(x, y)
    }
}
