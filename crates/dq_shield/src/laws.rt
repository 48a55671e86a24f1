ghost use Rattle.std.specs.Prelude.{◌≡◌, ◌++◌, ℕ, List as ListOf};
ghost use Rattle.dq_base.specs.Answers.{answer};
ghost use Rattle.dq_base.specs.Sessions.{filters_for, shielded_query, visible};
ghost use Rattle.dq_base.specs.declared.predicate.Predicate.{Predicate as PredicateOf};
ghost use Rattle.dq_base.specs.declared.query.Query.{Query as QueryOf};
ghost use Rattle.dq_base.specs.declared.script.Session.{Session as SessionOf};
ghost use Rattle.dq_base.specs.declared.value.Value.{Value as ValueOf};

/// A query with more filters behind its own has over any rows the answer that it has without them over the rows that they
/// leave. The body is empty: the clause is the fact.
pub fn filters_hide_the_rest()
    ensures { (q : QueryOf) (filters : ListOf PredicateOf) (rows : ListOf (ListOf ValueOf))
        → answer (record q { filters = q.filters ++ filters }) rows ≡ answer q (visible filters rows) }
{}

/// Where a lane's sessions leave the same of two lists of rows, the lane's queries have the same answers over both. The body
/// is empty: the clause is the fact.
pub fn hidden_rows_change_nothing()
    ensures { (sessions : ListOf SessionOf) (lane : ℕ) (q : QueryOf) (rows others : ListOf (ListOf ValueOf))
        → visible (filters_for sessions lane q.source) rows ≡ visible (filters_for sessions lane q.source) others
        → answer (shielded_query sessions lane q) rows ≡ answer (shielded_query sessions lane q) others }
{}
