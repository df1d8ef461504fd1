//! Which hash tables the objects of a document have.

use elf_make::Shape;

/// The hash tables of objects: those that their shapes say, or the same ones in all objects.
#[derive(Clone, Copy, PartialEq, Eq, Debug)]
pub enum HashTables {
    AsShaped,
    Sysv,
    GnuBySections,
    Both,
}

/// Each way in which an object of any symbols can have them. A GNU hash table alone leaves the
/// count of the symbols to the section headers.
pub const EACH_WAY: [HashTables; 3] = [
    HashTables::Sysv,
    HashTables::GnuBySections,
    HashTables::Both,
];

impl HashTables {
    /// Gives an object these tables.
    pub(crate) fn set(self, shape: &mut Shape) {
        match self {
            HashTables::AsShaped => {}
            HashTables::Sysv => {
                shape.sysv = true;
                shape.gnu = false;
            }
            HashTables::GnuBySections => {
                shape.sysv = false;
                shape.gnu = true;
                shape.sections = true;
            }
            HashTables::Both => {
                shape.sysv = true;
                shape.gnu = true;
            }
        }
    }
}
