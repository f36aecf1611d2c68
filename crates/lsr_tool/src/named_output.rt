//! An output that is known again when others wrote to it.
ghost use Rattle.std.specs.Io.{WritesAtMost};
ghost use Rattle.std.specs.Io.KnownBytes.{Keeps, WriteAppends};
ghost use Rattle.std.specs.Prelude.{◌≡◌, ℕ, List, Option, None};
ghost use Rattle.std.proofs.Props.{props};
ghost use Rattle.lsr_tool.specs.Growing.{StaysBefore};

use std::io;
use std::io::Write;
use std::marker::{Brand, PhantomData};

/// The name of an output: which it is, and what it held when it was named. A call picks it.
pub(crate) trait OutputName {
    // which it is
    ghost output: { ℕ };
    // what it held, where that is known
    ghost held: { Option (List ℕ) };
}

// until a call picks it
impl OutputName for Brand {
    ghost output = { 0 };

    ghost held = { None };
}

/// An output that can be told from others.
pub(crate) trait Output: Drop {
    // which it is
    ghost name: { Self → ℕ };
    // what it holds, where that is known
    ghost holds: { Self → Option (List ℕ) };

    /// Writes some of these bytes.
    fn put(&mut self, buf: &[u8]) -> io::Result<usize>
        ensures bound { WritesAtMost result buf.now }
        ensures bytes { WriteAppends (holds self.old) (holds self.new) result buf.now }
        ensures same { name self.new ≡ name self.old };

    /// Hands on what was written.
    fn hand_on(&mut self) -> io::Result<()>
        ensures bytes { Keeps (holds self.old) (holds self.new) }
        ensures same { name self.new ≡ name self.old };
}

/// An output that is lent.
#[derive(Drop)]
pub(crate) struct Lent<'a, W> {
    /// The output.
    pub(crate) output: &'a mut W,
}

impl<W: Write> Output for Lent<'_, W> {
    ghost name = { λ lent. lent.output.ghost_name };

    ghost holds = { λ lent. W.contents lent.output.now };

    fn put(&mut self, buf: &[u8]) -> io::Result<usize> {
        self.output.write(buf)
    }

    fn hand_on(&mut self) -> io::Result<()> {
        self.output.flush()
    }
}

/// The output of this name. Who is lent this can only write more to it: so it is still that output after calls that say nothing of what they
/// wrote, and what it held stands before what it holds.
#[derive(Drop)]
pub(crate) struct NamedOutput<L: OutputName, O: Output> {
    /// The output.
    pub(crate) output: O,
    /// Its name.
    pub(crate) name: PhantomData<L>,
    ghost same: { O.name output ≡ L.output },
    ghost stays: { StaysBefore L.held (O.holds output) } by { Prim.hlevel props },
}

impl<L: OutputName, O: Output> Write for NamedOutput<L, O> {
    ghost contents = { λ named. O.holds named.output };

    #[tactic(auto, using(crate::proofs::Growing::stays_written))]
    fn write(&mut self, buf: &[u8]) -> io::Result<usize> {
        self.output.put(buf)
    }

    #[tactic(auto, using(crate::proofs::Growing::stays_kept))]
    fn flush(&mut self) -> io::Result<()> {
        self.output.hand_on()
    }
}

/// Does nothing. By this use of an output that was lent, the proof reads what the one that lent it holds.
pub(crate) fn take_back<T>(x: &mut T)
    ensures { x.new ≡ x.old }
{}
