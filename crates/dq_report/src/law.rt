ghost use Rattle.std.specs.Prelude.{List as ListOf};
ghost use Rattle.dq_journal.specs.declared.entry.Entry.{Entry as EntryOf};
ghost use Rattle.dq_journal.specs.declared.result.StepResult.{StepResult as StepResultOf};
ghost use Rattle.dq_report.specs.Told.{TellsAll};

/// Equal reports are of equal journals and equal results, cell for cell. `are_well_formed` shows that all journals and results
/// meet the condition. The body is empty: the clause is the fact.
pub fn report_tells_all()
    ensures { (journal other : ListOf EntryOf) (results others : ListOf (ListOf StepResultOf)) → TellsAll journal results other others }
{}
