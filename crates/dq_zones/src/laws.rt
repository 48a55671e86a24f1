ghost use Rattle.std.specs.Prelude.{List as ListOf, length};
ghost use Rattle.dq_graph.specs.declared.prepared.Prepared.{Prepared as PreparedOf};
ghost use Rattle.dq_journal.specs.Steps.{AreRefused};
ghost use Rattle.dq_journal.specs.declared.result.ZoneResult.{ZoneResult as ZoneResultOf};
ghost use Rattle.dq_zones.specs.Answering.{BatchOf, FitZones, IsBatch};
ghost use Rattle.dq_zones.specs.declared.fetch.Fetch.{Fetch as FetchOf};

/// A batch that was prepared, and for which an answer or a refusal was brought for each remote query, can be answered over the outcomes
/// of a refused one. The body is empty: the clause is the law.
pub fn batches_fit()
    ensures { (b : BatchOf) (p : PreparedOf) (fetches : ListOf FetchOf) (outcomes : ListOf ZoneResultOf) → IsBatch b p fetches → AreRefused b.schemas b.zones outcomes
        → FitZones (length outcomes) p fetches }
{}
