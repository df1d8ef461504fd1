use crate::Failed;
use load_model::Text;
use path_text::{Abs, Rel};

/// A file of a folder: its path below the folder's root, whether it may be run, and its bytes.
#[derive(Drop)]
pub struct MemFile {
    pub path: Rel,
    pub executable: bool,
    pub bytes: Text,
}

/// Whether a folder holds a finished file.
#[derive(Clone, Copy, PartialEq, Eq, Debug)]
pub enum RootState {
    Empty,
    NotEmpty,
}

/// A folder that is written: its root is opened, and then file after file is begun, appended to and
/// finished.
///
/// A folder may tell its finished files, its open file and the roots that were opened, all three or
/// none, and then its calls do to them what is said here. It always counts its faults.
pub trait OutDir {
    ghost use Rattle.std.specs.Prelude.{◌≡◌, ℕ, take, IsSome, IfOk, OnOk, OnErr};
    ghost use Rattle.ports.specs.Folder.{Folder, IsClosed, root_state};
    ghost use Rattle.ports.specs.Folder.{begun, closed, grown, with_root};
    ghost use Rattle.answers.specs.Told.{WhereTold};
    ghost use Rattle.ports.specs.View.{Became, HasCause, Stays, View};

    // the folder, where it is told, and the faults
    ghost seen: { Self → View Folder };

    /// Opens the folder at this path, and makes it where it is absent. An open file is given up
    /// unfinished.
    fn root(&mut self, path: &Abs) -> Result<RootState, Failed>
        ensures state { IfOk result (λ state. WhereTold (seen self.old).told
            (λ folder. state ≡ root_state folder.finished)) }
        ensures opened { OnOk result
            (Became (with_root path.now) (seen self.old) (seen self.new)) }
        ensures stays { OnErr result (Stays (seen self.old) (seen self.new)) }
        ensures cause { HasCause (seen self.old) (seen self.new) result };

    /// Opens an empty file with this path and mark.
    fn begin(&mut self, path: &Rel, executable: bool) -> Result<(), Failed>
        requires closed { IsClosed (seen self.old) }
        ensures begun { OnOk result
            (Became (begun path.now executable) (seen self.old) (seen self.new)) }
        ensures stays { OnErr result (Stays (seen self.old) (seen self.new)) }
        ensures cause { HasCause (seen self.old) (seen self.new) result };

    /// Adds a piece to the open file. After a failure the file may hold a prefix of the piece.
    fn append(&mut self, bytes: &[u8]) -> Result<(), Failed>
        requires begun { WhereTold (seen self.old).told (λ folder. IsSome folder.pending) }
        ensures added { OnOk result (Became (grown bytes.now) (seen self.old) (seen self.new)) }
        ensures prefix { OnErr result
            ((n : ℕ) × Became (grown (take n bytes.now)) (seen self.old) (seen self.new)) }
        ensures cause { HasCause (seen self.old) (seen self.new) result };

    /// Adds the open file at the end of the finished files. Then no file is open.
    fn finish(&mut self) -> Result<(), Failed>
        requires begun { WhereTold (seen self.old).told (λ folder. IsSome folder.pending) }
        ensures closed { OnOk result (Became closed (seen self.old) (seen self.new)) }
        ensures stays { OnErr result (Stays (seen self.old) (seen self.new)) }
        ensures cause { HasCause (seen self.old) (seen self.new) result };
}
