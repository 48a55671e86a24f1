ghost use Rattle.std.specs.List.{list_all};
ghost use Rattle.std.specs.Prelude.{◌≡◌, List as ListOf, true};
ghost use Rattle.dq_base.specs.Batches.{groups};
ghost use Rattle.dq_base.specs.Headings.{Heading};
ghost use Rattle.dq_base.specs.declared.query.Query.{Query as QueryOf};
ghost use Rattle.dq_fuse.specs.Covered.{covers_members};
ghost use Rattle.dq_fuse.specs.Valid.{is_narrow, is_valid};

/// The key of a group covers each of its members. The body is empty: the clause is the law.
pub fn keys_cover_members()
    ensures { (queries : ListOf QueryOf) → list_all (covers_members queries) (groups queries) ≡ true }
{}

/// The key of a group is valid where all queries are, for schemas of at most 64 columns each: over 64 columns there are 385
/// different measures, and a query may show 512. The body is empty: the clause is the law.
pub fn keys_are_valid()
    ensures { (schemas : ListOf Heading) → (queries : ListOf QueryOf) → list_all is_narrow schemas ≡ true → list_all (is_valid schemas) queries ≡ true
        → list_all (λ g. is_valid schemas g.key) (groups queries) ≡ true }
{}
