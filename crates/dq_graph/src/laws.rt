ghost use Rattle.std.specs.Prelude.{◌≡◌, ℕ, List as ListOf, Some, slice_get};
ghost use Rattle.dq_base.specs.Batches.{roles};
ghost use Rattle.dq_base.specs.declared.canon.Role.{Role as RoleOf};
ghost use Rattle.dq_base.specs.declared.query.Query.{Query as QueryOf};
ghost use Rattle.dq_graph.specs.Splits.{SourceIsRight};

/// A query is remote only where no other one outdoes it, and the source of a local one is remote and covers it. The body is empty: the clause is the law.
pub fn sources_are_remote()
    ensures { (batch : ListOf QueryOf) → (place : ℕ) → (role : RoleOf) → slice_get (roles batch) place ≡ Some role → SourceIsRight batch place role }
{}
