ghost use Rattle.std.specs.Prelude.{◌≡◌, option_map};
ghost use Rattle.dq_outside.specs.Files.{file_named};

use dq_base::{Bytes, List, Text};

/// A file's name, and what it holds. Neither needs to be UTF-8.
#[derive(Debug, Drop)]
pub struct NamedFile {
    pub name: Text,
    pub bytes: Bytes,
}

/// Files by name, of which the first of a name counts.
pub type NamedFiles = List<NamedFile>;

/// The bytes of the first file of that name.
pub(crate) fn find_file<'a>(files: &'a NamedFiles, name: &[u8]) -> Option<&'a [u8]>
    ensures { option_map (λ b. b.now) result ≡ file_named files.now name.now }
{
    for file in files.as_slice() {
        if file.name.bytes() == name {
            return Some(file.bytes.bytes());
        }
    }
    None
}
