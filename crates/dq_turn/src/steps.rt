//! The steps of a turn, one function each, in their order. A seat that has the turn holds the slot.
ghost use Rattle.std.specs.Prelude.{◌≡◌, ℕ, ◌+◌, ◌%◌, ◌≤◌, ◌^◌, [], ◌∷◌, Some, None, length};
ghost use Rattle.dq_turn.specs.declared.views.Role.TheVariants.{Lane};
ghost use Rattle.dq_turn.specs.declared.views.Stage.TheVariants.{Outside, Waiting, Inside};
ghost use Rattle.dq_turn.specs.Made.{Grows};
ghost use Rattle.dq_turn.specs.Steps.{drew, Takes, counting};
ghost use Rattle.dq_turn.specs.Views.{ticket_of};

use crate::plays::{Count, Draw, Pass, Watch};
use crate::seats::{Place, Turnstile};
use dq_journal::Chronicled;
use std::snapshot::Snapshot;
use std::sync::Wait;

// The words: the next ticket, the ticket that has the turn, and the length of the journal.
pub(crate) const NEXT: usize = 0;

const NOW: usize = 1;

const LENGTH: usize = 2;

// The slot, which holds the state.
const STATE: usize = 0;

impl<S: Chronicled> Turnstile<S> {
    // Draws the next ticket.
    pub(crate) fn draw(&self, seat: &mut Place<S>) -> u64
        requires of { seat.old.table_id ≡ self.now.table.shared.table_id }
        requires role { seat.old.me.0.role ≡ Lane }
        requires outside { seat.old.me.0.stage ≡ Outside }
        ensures of { (seat.new.table_id ≡ seat.old.table_id) × (seat.new.id ≡ seat.old.id) }
        ensures drew { drew seat.old.me result seat.new.me }
    {
        self.table.shared.fetch_add::<Draw>(seat, NEXT, 1)
    }

    // Waits for the turn of the ticket. The seat then holds the slot, with the state in it.
    pub(crate) fn watch<R: Wait>(&self, rt: &R, seat: &mut Place<S>, ticket: u64)
        requires of { seat.old.table_id ≡ self.now.table.shared.table_id }
        requires role { seat.old.me.0.role ≡ Lane }
        requires ticket { (t : ℕ) × (seat.old.me.0.stage ≡ Waiting t) × (ticket ≡ t % 2 ^ 64) }
        ensures of { (seat.new.table_id ≡ seat.old.table_id) × (seat.new.id ≡ seat.old.id) }
        ensures takes { Takes S.loaded S.journal seat.old.me seat.new.me }
    {
        for _ in rt.forever() {
            let now = self.table.shared.load::<Watch>(seat, NOW);
            if now == ticket {
                return;
            }
            self.table.shared.park(rt, NOW, (now & 0xffff_ffff) as u32);
        }
        unreachable!()
    }

    // Takes the state out of the slot.
    pub(crate) fn out(&self, seat: &mut Place<S>) -> S
        requires of { seat.old.table_id ≡ self.now.table.shared.table_id }
        requires full { (x : S) × (seat.old.me.1 ≡ (0, Some x) ∷ []) }
        ensures of { (seat.new.table_id ≡ seat.old.table_id) × (seat.new.id ≡ seat.old.id) }
        ensures state { seat.old.me.1 ≡ (0, Some result) ∷ [] }
        ensures empty { seat.new.me ≡ (seat.old.me.0, (0, None) ∷ []) }
    {
        let Some(state) = self.table.shared.exchange(seat, STATE, None) else {
            unreachable!()
        };
        state
    }

    // Puts the state into the slot.
    pub(crate) fn home(&self, seat: &mut Place<S>, state: S)
        requires of { seat.old.table_id ≡ self.now.table.shared.table_id }
        requires empty { seat.old.me.1 ≡ (0, None) ∷ [] }
        ensures of { (seat.new.table_id ≡ seat.old.table_id) × (seat.new.id ≡ seat.old.id) }
        ensures full { seat.new.me ≡ (seat.old.me.0, (0, Some state) ∷ []) }
    {
        match self.table.shared.exchange(seat, STATE, Some(state)) {
            None => {}
            Some(_) => unreachable!(),
        }
    }

    // Counts the entries that were added since the state was taken out. The history is then the journal of what is in the slot.
    pub(crate) fn count(
        &self,
        seat: &mut Place<S>,
        found: &Snapshot<S>,
        left: &Snapshot<S>,
        added: u64,
    )
        requires of { seat.old.table_id ≡ self.now.table.shared.table_id }
        requires role { seat.old.me.0.role ≡ Lane }
        requires turn { seat.old.me.0.stage ≡ Inside (ticket_of seat.old.me.0.stage) found.now.value }
        requires home { seat.old.me.1 ≡ (0, Some left.now.value) ∷ [] }
        requires loaded { S.loaded left.now.value ≡ S.loaded found.now.value }
        requires grows { Grows seat.old.me.0.lane (S.journal found.now.value) (S.journal left.now.value) }
        requires added { length (S.journal found.now.value) + added ≡ length (S.journal left.now.value) }
        requires room { length (S.journal left.now.value) ≤ 2 ^ 63 }
        ensures of { (seat.new.table_id ≡ seat.old.table_id) × (seat.new.id ≡ seat.old.id) }
        ensures counted { seat.new.me ≡ (counting seat.old.me.0 left.now.value (S.journal left.now.value), seat.old.me.1) }
    {
        self.table.shared.fetch_add::<Count>(seat, LENGTH, added);
    }

    // Gives the turn to the next ticket, and wakes those that wait.
    pub(crate) fn pass(&self, seat: &mut Place<S>, left: &Snapshot<S>)
        requires of { seat.old.table_id ≡ self.now.table.shared.table_id }
        requires role { seat.old.me.0.role ≡ Lane }
        requires counted { seat.old.me.0.stage ≡ Inside (ticket_of seat.old.me.0.stage) left.now.value }
        requires home { seat.old.me.1 ≡ (0, Some left.now.value) ∷ [] }
        ensures of { (seat.new.table_id ≡ seat.old.table_id) × (seat.new.id ≡ seat.old.id) }
        ensures passed { seat.new.me ≡ (record seat.old.me.0 { stage = Outside }, []) }
    {
        self.table.shared.fetch_add::<Pass>(seat, NOW, 1);
        self.table.shared.wake_all(NOW);
    }
}
