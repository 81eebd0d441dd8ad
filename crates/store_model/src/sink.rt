//! Where the output goes. `write_all` writes a piece whole; `memory_sink.rt` has one that keeps what it took.
ghost use Rattle.std.specs.Prelude.{◌≡◌, ◌++◌, ◌<◌, ◌≤◌, List, ℕ, length, take, IfOk, OnOk, OnErr, IsErr};
ghost use Rattle.store_model.specs.Faults.{Rose};

use crate::Failed;

/// A stream of bytes that is written once, in order.
pub trait Sink {
    /// True of a type that says what it has taken.
    ghost tells: { Type 0 };

    /// The bytes that it has taken.
    ghost taken: { Self → List ℕ };

    /// How often it has failed.
    ghost faults: { Self → ℕ };

    /// Takes bytes from the front of the piece and answers how many. 0 of a piece that isn't empty is a fault too.
    fn write(&mut self, bytes: &[u8]) -> Result<usize, Failed>
        ensures within { IfOk result (λ n. n ≤ length bytes.now) }
        ensures taken { IfOk result (λ n. tells → taken self.new ≡ taken self.old ++ take n bytes.now) }
        ensures full { IfOk result (λ n. n ≡ 0 → 0 < length bytes.now → Rose (faults self.old) (faults self.new)) }
        ensures unchanged { OnErr result (tells → taken self.new ≡ taken self.old) }
        ensures never_falls { faults self.old ≤ faults self.new }
        ensures cause { IsErr result → Rose (faults self.old) (faults self.new) };
}

/// Writes all the bytes. After an `Err` the sink has taken some from the front.
pub fn write_all<O: Sink>(sink: &mut O, bytes: &[u8]) -> Result<(), Failed>
    ensures taken { OnOk result (O.tells → O.taken sink.new ≡ O.taken sink.old ++ bytes.now) }
    ensures prefix { OnErr result (O.tells → (n : ℕ) × (n ≤ length bytes.now) × (O.taken sink.new ≡ O.taken sink.old ++ take n bytes.now)) }
    ensures cause { IsErr result → Rose (O.faults sink.old) (O.faults sink.new) }
    ensures never_falls { O.faults sink.old ≤ O.faults sink.new }
{
    let mut done = 0;
    while done < bytes.len() {
        let count = sink.write(&bytes[done..])?;
        if count == 0 {
            return Err(Failed);
        }
        done += count;
    }
    Ok(())
}
