ghost use Rattle.std.specs.Prelude.{◌≡◌, ◌+◌, ◌≤◌, length, true};
ghost use Rattle.dq_laws.specs.Links.{links_numbered, links_out};
ghost use Rattle.dq_machine.specs.Machine.{after, legal};

use dq_extract::Loaded;
use dq_journal::Entry;

/// There are never more links than lanes: those that are idle and those that lanes have are together at most as many as the lanes,
/// for each of which there is a work. The body is empty: the clauses are the law.
pub fn links_are_few(loaded: &Loaded, journal: &[Entry])
    requires legal { legal loaded.now journal.now ≡ true }
    ensures lanes { length (after loaded.now journal.now).links.idle + links_out (after loaded.now journal.now).works ≤ length loaded.now.script.lanes }
    ensures works { length (after loaded.now journal.now).links.idle + links_out (after loaded.now journal.now).works
        ≤ length (after loaded.now journal.now).works }
{}

/// No two links have the same number: at most one of those that are idle or that lanes have is the link of a number. The body is
/// empty: the clause is the law.
pub fn links_differ(loaded: &Loaded, journal: &[Entry], link: u64)
    requires legal { legal loaded.now journal.now ≡ true }
    ensures { links_numbered link (after loaded.now journal.now) ≤ 1 }
{}
