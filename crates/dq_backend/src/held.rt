ghost use Rattle.std.specs.Arc.{arc_value};
ghost use Rattle.std.specs.Prelude.{◌≡◌};

use dq_base::Values;
use dq_extract::Extract;
use std::marker::Model;
use std::sync::Arc;

/// A version that is mounted.
#[derive(Drop)]
pub(crate) struct MountedVersion {
    stamp: u64,
    extract: Arc<Extract>,
}

impl Model for MountedVersion {
    ghost use Rattle.std.specs.Arc.{arc_value};
    ghost use Rattle.dq_link.specs.Mounts.{Mounted};

    ghost Value = { Mounted };

    ghost view = { λ m. record { stamp = m.stamp; version = arc_value m.extract } };
}

impl MountedVersion {
    pub(crate) fn new(stamp: u64, extract: Arc<Extract>) -> MountedVersion
        ensures { result ≡ record { stamp = stamp; version = arc_value extract } }
    {
        MountedVersion { stamp, extract }
    }

    /// The version.
    pub(crate) fn extract(&self) -> &Extract
        ensures { result.now ≡ self.now.version }
    {
        &self.extract
    }
}

/// A list that stands in a table.
#[derive(Drop)]
pub(crate) struct TableList {
    list: Arc<Values>,
}

impl Model for TableList {
    ghost use Rattle.std.specs.Arc.{arc_value};
    ghost use Rattle.std.specs.Prelude.{List};
    ghost use Rattle.dq_base.specs.declared.value.Value.{Value as OneValue};

    ghost Value = { List OneValue };

    ghost view = { λ t. arc_value t.list };
}

impl TableList {
    pub(crate) fn new(list: Arc<Values>) -> TableList
        ensures { result ≡ arc_value list }
    {
        TableList { list }
    }

    /// The list.
    pub(crate) fn values(&self) -> &Values
        ensures { result.now ≡ self.now }
    {
        &self.list
    }
}
