use crate::Failed;

/// What takes printed bytes.
///
/// A sink may tell the bytes that it took. It always counts its faults.
pub trait Sink {
    ghost use Rattle.std.specs.Prelude.{ℕ, List, take, OnOk, OnErr};
    ghost use Rattle.ports.specs.View.{Became, HasCause, View, with_line};

    // the bytes taken so far, where the sink tells them, and the faults
    ghost seen: { Self → View (List ℕ) };

    /// Takes the whole piece, or a prefix of it where the call fails.
    fn put(&mut self, bytes: &[u8]) -> Result<(), Failed>
        ensures took { OnOk result (Became (with_line bytes.now) (seen self.old) (seen self.new)) }
        ensures prefix { OnErr result
            ((n : ℕ) × Became (with_line (take n bytes.now)) (seen self.old) (seen self.new)) }
        ensures cause { HasCause (seen self.old) (seen self.new) result };
}
