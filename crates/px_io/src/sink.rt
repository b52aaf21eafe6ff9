// Where text is written to.
ghost use Rattle.std.specs.Prelude.{◌≡◌, ◌<◌, ◌≤◌, ℕ, List, Option, length, take, IfOk, OnErr};
ghost use Rattle.px_io.specs.Counts.{Rose};
ghost use Rattle.px_io.specs.Puts.{extended, Puts};

/// A write failed.
#[derive(Clone, Copy, PartialEq, Eq)]
pub struct Failed;

/// A text was written in part, and then a write failed.
#[derive(Clone, Copy, PartialEq, Eq)]
pub struct Stopped;

/// A device that takes bytes.
pub trait Sink {
    /// What was written, where the sink tells it.
    ghost written: { Self → Option (List ℕ) };

    /// How many writes failed, up to the end of a `u64`.
    ghost faults: { Self → ℕ };

    /// Takes the first bytes of a piece, at least one of a piece that isn't empty, and says how many.
    /// `Failed` comes only where the device failed, which is counted, and then nothing was taken.
    fn write(&mut self, piece: &[u8]) -> Result<usize, Failed>
        ensures within { IfOk result (λ n. n ≤ length piece.now) }
        ensures some { IfOk result (λ n. 0 < length piece.now → 0 < n) }
        ensures taken { IfOk result (λ n. written self.new ≡ extended (written self.old) (take n piece.now)) }
        ensures failed { OnErr result (Rose (faults self.old) (faults self.new)) }
        ensures unchanged { OnErr result (written self.new ≡ written self.old) }
        ensures count { faults self.old ≤ faults self.new };
}

/// Writes a whole piece, in as many writes as it takes. It needs no memory.
/// At `Stopped` a proper prefix of the piece was written, and the device had a fault.
#[tactic(auto, unfolding(crate::specs::Puts::GrewByFront))]
pub fn put_all<O: Sink>(out: &mut O, piece: &[u8]) -> Result<(), Stopped>
    ensures { Puts O.written O.faults out.old piece.now out.new result }
{
    let mut at = 0;
    while at < piece.len() {
        match out.write(&piece[at..]) {
            Ok(n) => at += n,
            Err(Failed) => return Err(Stopped),
        }
    }
    Ok(())
}
