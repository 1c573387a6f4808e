//! What graph and trace have in common: how often a pipeline is fed.
ghost use Rattle.std.specs.Prelude.{◌≡◌};
ghost use Rattle.yt_gen.specs.Pipelines.{period_of};

/// The period of the input of a pipeline by its number, in ticks.
pub(crate) fn period(pipeline: u32) -> u64
    ensures { result ≡ period_of pipeline }
{
    2000 << (pipeline % 3)
}
