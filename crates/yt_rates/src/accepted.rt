//! Graphs whose tasks fit.
ghost use Rattle.std.specs.Prelude.{◌≡◌};
ghost use Rattle.std.specs.List.{All};
ghost use Rattle.yt_graph.specs.Picture.{graph_tree};
ghost use Rattle.yt_graph.specs.WellFormed.{IsWellFormed};
ghost use Rattle.yt_cost.specs.Codes.{AreCodesOf};
ghost use Rattle.yt_cost.specs.Faults.{IsWithinLimits};
ghost use Rattle.yt_fits.specs.Loads.{load_sum};
ghost use Rattle.yt_rates.specs.Acceptance.{IsAccepted, IsFitting};

use crate::table::RateTable;
use std::marker::Model;
use yt_cost::Codes;
use yt_fits::LoadSum;
use yt_graph::Graph;
use yt_set::TaskSet;

/// A well-formed graph with its codes, its rates and its tasks, which fit. A contract sees these four. The load of the tasks is
/// kept with them.
#[derive(Drop)]
pub struct Accepted {
    graph: Graph,
    codes: Codes,
    rates: RateTable,
    set: TaskSet,
    load: LoadSum,
}

impl Model for Accepted {
    ghost use Rattle.std.specs.Coded.{codes as all_codes};
    ghost use Rattle.std.specs.Prelude.{◌≡◌};
    ghost use Rattle.yt_fits.specs.Loads.{load_sum};
    ghost use Rattle.yt_graph.specs.contracts.graph.Graph as resolved;
    ghost use Rattle.yt_rates.specs.Acceptance.{Parts, IsAccepted};

    ghost Value = { Parts };

    ghost coded = { Prim.hlevel (all_codes, resolved.the_row.coded) };

    ghost view = { λ a. record {
      graph = a.graph;
      codes = a.codes;
      rates = a.rates;
      set = a.set;
    } };

    ghost invariant = { λ a. IsAccepted (record {
      graph = a.graph;
      codes = a.codes;
      rates = a.rates;
      set = a.set;
    }) × (a.load ≡ load_sum a.set) };
}

impl Accepted {
    /// The accepted graph of these parts.
    pub(crate) fn new(
        graph: Graph,
        codes: Codes,
        rates: RateTable,
        set: TaskSet,
        load: LoadSum,
    ) -> Self
        requires well_formed { IsWellFormed (graph_tree graph) }
        requires codes { AreCodesOf (graph_tree graph) codes }
        requires costs { All IsWithinLimits (graph_tree graph).ports }
        requires fitting { IsFitting (graph_tree graph) rates set }
        requires load { load ≡ load_sum set }
        ensures graph { result.graph ≡ graph }
        ensures codes { result.codes ≡ codes }
    {
        Accepted {
            graph,
            codes,
            rates,
            set,
            load,
        }
    }

    /// The graph. None of the calls below takes memory, nor does this.
    pub fn graph(&self) -> &Graph
        ensures graph { result.now ≡ self.now.graph }
        ensures accepted { IsAccepted self.now }
    {
        &self.graph
    }

    /// The codes of the graph's ports.
    pub fn codes(&self) -> &Codes
        ensures codes { result.now ≡ self.now.codes }
        ensures accepted { IsAccepted self.now }
    {
        &self.codes
    }

    /// The rates of the graph's ports.
    pub fn rates(&self) -> &RateTable
        ensures rates { result.now ≡ self.now.rates }
        ensures accepted { IsAccepted self.now }
    {
        &self.rates
    }

    /// The tasks of the graph.
    pub fn set(&self) -> &TaskSet
        ensures set { result.now ≡ self.now.set }
        ensures accepted { IsAccepted self.now }
    {
        &self.set
    }

    /// The load of the tasks over their hyperperiod.
    pub fn load(&self) -> LoadSum
        ensures { result ≡ load_sum self.now.set }
    {
        self.load
    }
}
