use crate::Failed;
use load_model::Name;
use path_text::Abs;
use std::alloc::Global;

/// What is at a path: no file, where a folder is none, or a file with its identity and its length
/// in bytes.
#[derive(Drop)]
pub enum Found {
    Absent,
    File { id: Name, len: u64 },
}

/// Why a probe has no answer.
#[derive(Clone, Copy, PartialEq, Eq, Debug)]
pub enum ProbeStop {
    Failed,
    NoMemory,
}

/// A tree of files that is read.
///
/// A tree may tell its world, and then its answers are those of this world. It always counts its
/// faults.
pub trait Tree {
    ghost use Rattle.std.specs.Prelude.{◌≡◌, ◌<◌, ◌≤◌, length, take, drop, IfOk};
    ghost use Rattle.load_model.specs.World.{IsWorld, World};
    ghost use Rattle.answers.specs.Faults.{Rose};
    ghost use Rattle.ports.specs.Reading.{found_at, bytes_at};
    ghost use Rattle.answers.specs.Told.{WhereTold};
    ghost use Rattle.ports.specs.View.{HasCause, OnlyReads, Stays, View};

    // the world, where the tree tells it, and the faults
    ghost seen: { Self → View World };

    /// What is at the path.
    fn probe(&mut self, alloc: Global, path: &Abs) -> Result<Found, ProbeStop>
        ensures found { IfOk result
            (λ found. WhereTold (seen self.old).told (λ world. found ≡ found_at world path.now)) }
        ensures failed { result ≡ Err ProbeStop.Failed
            → Rose (seen self.old).faults (seen self.new).faults }
        ensures only_reads { OnlyReads (seen self.old) (seen self.new) };

    /// Reads bytes of a file from a place on into the front of `buf`, and gives their number. A
    /// read that gives nothing is a fault. What stands in `buf` behind these bytes, and all of it
    /// after a failure, is left open.
    fn read_at(&mut self, path: &Abs, at: u64, buf: &mut [u8]) -> Result<usize, Failed>
        requires room { 0 < length buf.old }
        requires within { WhereTold (seen self.old).told
            (λ world. at < length (bytes_at world path.now)) }
        ensures some { IfOk result (λ n. 0 < n) }
        ensures fits { IfOk result (λ n. n ≤ length buf.old) }
        ensures read { IfOk result (λ n. WhereTold (seen self.old).told
            (λ world. take n buf.new ≡ take n (drop at (bytes_at world path.now)))) }
        ensures stays { Stays (seen self.old) (seen self.new) }
        ensures cause { HasCause (seen self.old) (seen self.new) result };

    // what a tree tells is a world
    ghost tells_world: { (tree : Self) → WhereTold (seen tree).told IsWorld };
}
