ghost use Rattle.std.specs.List.{AllByRecursion};
ghost use Rattle.std.specs.Prelude.{◌≡◌, ◌≤◌, ◌<◌, [], List as ListOf, Some, find, length, map, slice_get};
ghost use Rattle.dq_base.specs.Headings.{Heading};
ghost use Rattle.dq_cache.specs.Entries.{fits, has_body, to_front};
ghost use Rattle.dq_machine.specs.Latest.{AreLatest};
ghost use Rattle.dq_machine.specs.State.{Flown, Publication};
ghost use Rattle.dq_desk.specs.Handed.{AreHandedOut, IsSound, IsSoundBodied, looked_in};
ghost use Rattle.dq_desk.specs.Plans.{HandsOut, literal_left};
ghost use Rattle.dq_text.specs.Sizes.{IsSizedQuery};
ghost use Rattle.dq_text.specs.Statements.{body};

use crate::planning::{stamp_at, text_at};
use crate::roomy::Roomy;
use dq_base::{Canon, Canons, Text, Texts};
use dq_cache::{Clever, Found, Literal};
use dq_journal::{Meets, Met};

/// What a query meets in the caches, from which the entry that it finds is handed out and goes to the front; where it finds none, it
/// meets what is given. It takes no memory.
fn hand_out(
    clever: &mut Clever,
    literal: &mut Literal,
    stamp: u64,
    q: &Canon,
    text: &Text,
    other: Met,
) -> (Met, Option<Found>)
    ensures out { HandsOut (find (fits stamp q.now) clever.old.entries) (find (has_body stamp text.now) literal.old.entries) other result }
    ensures clever { clever.new.entries ≡ to_front (fits stamp q.now) clever.old.entries }
    ensures clever_bound { clever.new.bound ≡ clever.old.bound }
    ensures literal { literal.new.entries ≡ literal_left (find (fits stamp q.now) clever.old.entries) stamp text.now literal.old.entries }
    ensures literal_bound { literal.new.bound ≡ literal.old.bound }
{
    if let Some(found) = clever.find(stamp, q) {
        return (Met::Hit(found.flight), Some(found));
    }
    if let Some(found) = literal.find(stamp, text) {
        return (Met::Literal(found.flight), Some(found));
    }
    (other, None)
}

/// What the query at a place meets where it finds nothing in a cache.
fn other_at(otherwise: &Meets, place: usize) -> Met
    requires { place < length otherwise.now }
    ensures { slice_get otherwise.now place ≡ Some result }
{
    otherwise.as_slice()[place]
}

/// What the queries meet, one after another: each sees the caches as those before it left them. What each meets is put down twice. It
/// takes no memory: the room was taken before.
pub(crate) fn hand_out_all(
    clever: &mut Clever,
    literal: &mut Literal,
    stamps: &[u64],
    queries: &Canons,
    texts: &Texts,
    otherwise: &Meets,
    met: &mut Roomy<Met>,
    again: &mut Roomy<Met>,
    held: &mut Roomy<Option<Found>>,
)
    requires texts { texts.now ≡ map body queries.now }
    requires otherwise { length otherwise.now ≡ length queries.now }
    requires sized { AllByRecursion IsSizedQuery queries.now }
    requires met { met.old.items ≡ [] }
    requires met_room { length queries.now ≤ met.old.spare }
    requires again { again.old.items ≡ [] }
    requires again_room { length queries.now ≤ again.old.spare }
    requires held { held.old.items ≡ [] }
    requires held_room { length queries.now ≤ held.old.spare }
    ensures handed { (schemas : ListOf Heading) (versions : ListOf Publication) (flown : ListOf Flown) → AreLatest stamps.now versions
        → AllByRecursion (IsSound schemas versions) clever.old.entries → AllByRecursion (IsSoundBodied schemas versions) literal.old.entries
        → AreHandedOut schemas versions queries.now (looked_in flown versions clever.old literal.old queries.now) clever.old clever.new literal.old literal.new otherwise.now met.new.items held.new.items }
    ensures again { again.new.items ≡ met.new.items }
{
    for (place, q) in queries.as_slice().iter().enumerate() {
        let stamp = stamp_at(stamps, q.query().source);
        let (one, found) = hand_out(
            clever,
            literal,
            stamp,
            q,
            text_at(texts, place),
            other_at(otherwise, place),
        );
        met.push(one);
        again.push(one);
        held.push(found);
    }
}
