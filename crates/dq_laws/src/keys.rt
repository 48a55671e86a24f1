ghost use Rattle.std.specs.List.{list_all};
ghost use Rattle.std.specs.Prelude.{◌≡◌, ◌<◌, length, None, true};
ghost use Rattle.dq_base.specs.Canonical.{IsCanonical};
ghost use Rattle.dq_base.specs.Scripts.{heading_fits};
ghost use Rattle.dq_base.specs.Validity.{invalid_by};
ghost use Rattle.dq_fuse.specs.Valid.{is_narrow};
ghost use Rattle.dq_laws.specs.Keys.{KeysAre};
ghost use Rattle.dq_machine.specs.Machine.{after, legal};

use dq_base::Schema;
use dq_extract::Loaded;
use dq_journal::Entry;

// Reading each schema's sorts brings to the proof that there are as many as names.
fn read_sorts(schemas: &[Schema])
    requires { list_all heading_fits schemas.now ≡ true }
    ensures { list_all is_narrow schemas.now ≡ true }
{
    for schema in schemas {
        let _sorts = schema.sorts();
    }
}

/// The key of each flight, the query of each join of each lane, and the key of each answer in both caches are valid for the script's
/// schemas, so their sources are the script's, and canonical. The clauses are the law; the body brings to the proof that the schemas
/// are within their limits, and looks at each of them once, of which there are 64 at most.
pub fn keys_are_valid(loaded: &Loaded, journal: &[Entry])
    requires legal { legal loaded.now journal.now ≡ true }
    ensures valid { KeysAre (λ q. invalid_by loaded.now.script.schemas q ≡ None) (after loaded.now journal.now) }
    ensures sources { KeysAre (λ q. q.source < length loaded.now.script.schemas) (after loaded.now journal.now) }
    ensures canonical { KeysAre IsCanonical (after loaded.now journal.now) }
{
    read_sorts(loaded.script().schemas.as_slice());
}
