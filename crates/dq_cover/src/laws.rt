ghost use Rattle.std.specs.List.{list_all, list_any};
ghost use Rattle.std.specs.Prelude.{◌≡◌, ◌&&◌, ◌∷◌, ℕ, List, not, true};
ghost use Rattle.dq_base.specs.Batches.{fused_key, fuses, is_local};
ghost use Rattle.dq_base.specs.Covering as cover;
ghost use Rattle.dq_base.specs.declared.predicate.Test.{Test as TestOf};
ghost use Rattle.dq_base.specs.declared.query.Query.{Query as QueryOf};

/// A query covers itself. The body is empty: the clause is the law.
pub fn covering_is_reflexive()
    ensures { (p : QueryOf) → cover.covers p p ≡ true }
{}

/// What covers a query that covers another covers the other too. The body is empty: the clause is the law.
pub fn covering_is_transitive()
    ensures { (p q r : QueryOf) → cover.covers p q ≡ true → cover.covers q r ≡ true → cover.covers p r ≡ true }
{}

/// A test is within itself. The body is empty: the clause is the law.
pub fn within_is_reflexive()
    ensures { (a : TestOf) → cover.within a a ≡ true }
{}

/// What is within a test that is within another is within the other too. The body is empty: the clause is the law.
pub fn within_is_transitive()
    ensures { (a b c : TestOf) → cover.within a b ≡ true → cover.within b c ≡ true → cover.within a c ≡ true }
{}

/// A query of a batch that isn't asked itself is covered by one that is. The body is empty: the clause is the law.
pub fn local_has_remote()
    ensures { (batch : List (ℕ × QueryOf)) → (q : ℕ × QueryOf) → is_local batch q ≡ true
        → list_any (λ p. not (is_local batch p) && cover.covers p.1 q.1) batch ≡ true }
{}

/// The key of a group of several covers each of its members. The body is empty: the clause is the law.
pub fn fused_key_covers()
    ensures { (q p : QueryOf) → (ps : List QueryOf) → list_all (fuses q) (p ∷ ps) ≡ true → list_all (cover.covers (fused_key (p ∷ ps) q)) (q ∷ p ∷ ps) ≡ true }
{}
