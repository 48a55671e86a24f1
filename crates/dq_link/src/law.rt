ghost use Rattle.std.specs.Prelude.{◌≡◌, List};
ghost use Rattle.dq_base.specs.Spelling.{Bytes};
ghost use Rattle.dq_base.specs.declared.cell.Cell.{Cell};
ghost use Rattle.dq_link.specs.Meanings.{Means};
ghost use Rattle.dq_link.specs.Mounts.{Holdings, Mounts};

/// A text means at most one table over what stands on a link. The body is empty: the clause is the fact.
pub fn text_means_one_table()
    ensures { (mounts : Mounts) (tables : Holdings) (text : Bytes) (table other : List (List Cell)) → Means mounts tables text table → Means mounts tables text other → table ≡ other }
{}
