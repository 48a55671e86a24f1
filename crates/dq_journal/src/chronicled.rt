ghost use Rattle.std.specs.Prelude.{◌≡◌, List, length};
ghost use Rattle.dq_journal.specs.declared.entry.Entry.{Entry};

/// A state that keeps a journal of what happened to it, beside what was loaded for it and never changes.
pub trait Chronicled {
    /// What things that are loaded are to a contract.
    ghost Loaded: { Type 0 };

    /// What was loaded for the state.
    ghost loaded: { Self → Loaded };

    /// The entries of its journal, in order.
    ghost journal: { Self → List Entry };

    /// How many entries its journal has, in constant time. It takes no memory.
    fn count(&self) -> u64
        ensures { result ≡ length (journal self.now) };
}
