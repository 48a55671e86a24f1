ghost use Rattle.std.specs.List.{AllByRecursion};
ghost use Rattle.std.specs.Prelude.{◌^◌, ◌≤◌, List, length, unsigned_abs, ℕ};
ghost use Rattle.dq_base.specs.Answers.{number_of, present, total};
ghost use Rattle.dq_base.specs.Filters.{value_at};
ghost use Rattle.dq_base.specs.declared.value.Value.{Value as ValueOf};

/// Over at most 2^23 rows whose numbers have 64 bits, a column's sum is at most 2^86 in size. So `derive` finds no sum that
/// it can't hold where the held table is the answer over such rows. The body is empty: the clause is the law.
pub fn sums_stay_within()
    ensures { (column : ℕ) (rows : List (List ValueOf)) → length rows ≤ 2 ^ 23 → AllByRecursion (λ row. unsigned_abs (number_of (value_at row column)) ≤ 2 ^ 63) rows
        → unsigned_abs (total (present column rows)) ≤ 2 ^ 86 }
{}
