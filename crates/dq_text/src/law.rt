ghost use Rattle.std.specs.Prelude.{◌≡◌};
ghost use Rattle.dq_base.specs.declared.query.Query.{Query as QueryOf};
ghost use Rattle.dq_text.specs.Sizes.{IsSized, IsSizedQuery};
ghost use Rattle.dq_text.specs.Statements.{body, spelling};
ghost use Rattle.dq_text.specs.declared.statement.Statement.{Statement as StatementOf};

/// Equal texts are of equal statements. `is_sized` shows that all statements meet the condition. The body is empty: the clause is
/// the fact.
pub fn spelling_tells_all()
    ensures { (s other : StatementOf) → IsSized s → IsSized other → spelling s ≡ spelling other → s ≡ other }
{}

/// Equal bodies are of equal queries. `is_sized_key` shows that all keys meet the condition. The body is empty: the clause is the
/// fact.
pub fn body_tells_all()
    ensures { (key other : QueryOf) → IsSizedQuery key → IsSizedQuery other → body key ≡ body other → key ≡ other }
{}
