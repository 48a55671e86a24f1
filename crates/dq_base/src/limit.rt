/// The limits of what is read. Each has a number, which stands beside it and in `specs/Limits.antt`.
#[derive(Clone, Copy, Debug, PartialEq, Eq)]
pub enum Limit {
    ScriptBytes,
    Extracts,
    Columns,
    Lanes,
    Steps,
    Zones,
    AllZones,
    Turns,
    Faults,
    Capacity,
    SessionItems,
    FileBytes,
    AllBytes,
    Cells,
    ReportBytes,
}

/// The most bytes of a script.
pub const SCRIPT_BYTES: u64 = 16_777_216;

/// The most extracts of a script.
pub const MOST_EXTRACTS: u64 = 64;

/// The most columns of an extract.
pub const MOST_COLUMNS: u64 = 64;

/// The most lanes of a script.
pub const MOST_LANES: u64 = 64;

/// The most steps of a lane.
pub const MOST_STEPS: u64 = 4_096;

/// The most zones of a batch.
pub const MOST_ZONES: u64 = 64;

/// The most zones of all batches.
pub const MOST_ALL_ZONES: u64 = 65_536;

/// The most turns of a schedule.
pub const MOST_TURNS: u64 = 1_048_576;

/// The most items of one list of what is wanted to fail.
pub const MOST_FAULTS: u64 = 4_096;

/// The most entries of a cache that is bounded by entries.
pub const MOST_ENTRIES: u64 = 4_096;

/// The most cells of a cache that is bounded by cells.
pub const MOST_BOUND_CELLS: u64 = 4_194_304;

/// The most items of one session's filters.
pub const MOST_SESSION_ITEMS: u64 = 256;

/// The most bytes of a file of rows.
pub const FILE_BYTES: u64 = 67_108_864;

/// The most bytes of all files of rows, each as often as it is read.
pub const ALL_BYTES: u64 = 268_435_456;

/// The most cells of all loaded rows.
pub const MOST_CELLS: u64 = 8_388_608;

/// The most bytes of a report that is judged.
pub const REPORT_BYTES: u64 = 268_435_456;
