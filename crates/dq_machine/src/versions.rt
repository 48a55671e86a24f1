ghost use Rattle.std.specs.Arc.{arc_value};
ghost use Rattle.std.specs.Prelude.{◌≡◌, ℕ, ◌≤◌, [], ◌∷◌, MatchOption, OnErr, OnOk, length, slice_index_or};
ghost use Rattle.dq_machine.specs.Publishing.{rows_at, stamp_in};

use dq_base::{List, Memory};
use dq_extract::Extract;
use std::alloc::Global;
use std::marker::Model;
use std::sync::Arc;

/// A publication: its source, and the version that it leaves. Contracts see the version's rows.
#[derive(Drop)]
pub(crate) struct Published {
    source: u32,
    extract: Arc<Extract>,
}

impl Model for Published {
    ghost use Rattle.std.specs.Arc.{arc_value};
    ghost use Rattle.dq_machine.specs.State.{Publication};

    ghost Value = { Publication };

    ghost view = { λ p. record { source = p.source; rows = (arc_value p.extract).rows } };
}

/// All publications. Contracts see them with the latest one first.
#[derive(Drop)]
pub(crate) struct Versions {
    published: List<Published>,
    // For each source its stamp, and 0 for those that aren't there.
    latest: Vec<u64>,
}

impl Model for Versions {
    ghost use Rattle.std.specs.Prelude.{List as ListOf, reverse};
    ghost use Rattle.dq_machine.specs.State.{Publication};
    ghost use Rattle.dq_machine.specs.Latest.{AreLatest};

    ghost Value = { ListOf Publication };

    ghost view = { λ v. reverse v.published };

    ghost invariant = { λ v. AreLatest v.latest.items (reverse v.published) };
}

// Room for so many stamps at least, those that come on being 0.
fn widen(latest: &mut Vec<u64>, count: usize) -> Result<(), Memory>
    ensures same { (k : ℕ) → slice_index_or latest.new.items k 0 ≡ slice_index_or latest.old.items k 0 }
    ensures count { OnOk result (count ≤ length latest.new.items) }
{
    for place in latest.len()..count {
        let _ = place;
        latest.push(0)?;
    }
    Ok(())
}

impl Versions {
    /// No publications. It takes no memory.
    pub(crate) fn new(alloc: Global) -> Versions
        ensures { result ≡ [] }
    {
        Versions {
            published: List::new(alloc),
            latest: Vec::new(alloc),
        }
    }

    /// The source's stamp: how many publications of any source there were up to and with its latest, or 0. In constant time.
    pub(crate) fn stamp(&self, source: u32) -> u64
        ensures { result ≡ stamp_in self.now source }
    {
        self.latest.get(source as usize).copied().unwrap_or(0)
    }

    /// What the publication of that stamp left, or none where there is no such publication. In constant time.
    pub(crate) fn extract_at(&self, stamp: u64) -> Option<&Arc<Extract>>
        ensures { MatchOption result (rows_at self.now stamp ≡ []) (λ extract. (arc_value extract.now).rows ≡ rows_at self.now stamp) }
    {
        if stamp == 0 {
            return None;
        }
        let Some(published) = self.published.get(stamp - 1) else {
            return None;
        };
        Some(&published.extract)
    }

    /// One more publication, which is the latest then. In constant time but for growth. An `Err` changes nothing.
    pub(crate) fn push(&mut self, source: u32, extract: Arc<Extract>) -> Result<(), Memory>
        ensures ok { OnOk result (self.new ≡ record { source = source; rows = (arc_value extract).rows } ∷ self.old) }
        ensures err { OnErr result (self.new ≡ self.old) }
    {
        let place = source as usize;
        widen(&mut self.latest, place + 1)?;
        self.published.push(Published { source, extract })?;
        self.latest[place] = self.published.len();
        Ok(())
    }
}
