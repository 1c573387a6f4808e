//! What the definitions mean, as laws.
ghost use Rattle.yt_trace.specs.Laws.{NoTraceAndFault, TraceOrFault, TracesKeepPeriods};
ghost use Rattle.yt_trace.specs.Worked.{WorkedFaults, WorkedTraces};

/// Each text has a trace of a graph, or a fault.
pub fn trace_or_fault()
    ensures { TraceOrFault }
{}

/// None has both.
pub fn no_trace_and_fault()
    ensures { NoTraceAndFault }
{}

/// The trace that a text says of a graph keeps the graph's periods.
pub fn traces_keep_periods()
    ensures { TracesKeepPeriods }
{}

/// The traces that worked texts say.
pub fn worked_traces()
    ensures { WorkedTraces }
{}

/// The first faults of worked texts.
pub fn worked_faults()
    ensures { WorkedFaults }
{}
