//! A sink of bytes.
ghost use Rattle.std.specs.Prelude.{◌<◌, ◌≤◌, ◌^◌, ℕ, List, length, IfOk, OnOk, OnErr};
ghost use Rattle.std.specs.declared.option.Option.{Option};
ghost use Rattle.std.specs.Io.KnownBytes.{Appends, WriteAppends};
ghost use Rattle.expert_io.specs.Faults.{HasCause};
ghost use Rattle.expert_io.specs.Written.{AppendsProperPrefix};

/// A call failed, and had a reason to.
#[derive(Clone, Copy, Debug, PartialEq, Eq)]
pub struct Failed;

pub trait Sink {
    // what was written, where it is told
    ghost written: { Self → Option (List ℕ) };

    ghost faults: { Self → ℕ };

    fn write(&mut self, piece: &[u8]) -> Result<usize, Failed>
        ensures bound { IfOk result (λ n. n ≤ length piece.now) }
        ensures some { IfOk result (λ n. 0 < length piece.now → 0 < n) }
        ensures bytes { WriteAppends (written self.old) (written self.new) result piece.now }
        ensures cause { HasCause (faults self.old) (faults self.new) result }
        ensures bounded { faults self.new < 2 ^ 64 };
}

/// Writes the whole piece.
pub fn write_all<S: Sink>(sink: &mut S, piece: &[u8]) -> Result<(), Failed>
    ensures ok { OnOk result (Appends (S.written sink.old) (S.written sink.new) piece.now) }
    ensures err { OnErr result (AppendsProperPrefix (S.written sink.old)
        (S.written sink.new) piece.now) }
    ensures cause { HasCause (S.faults sink.old) (S.faults sink.new) result }
{
    let mut done = 0usize;
    while done < piece.len() {
        match sink.write(&piece[done..]) {
            Ok(n) => done += n,
            Err(_) => return Err(Failed),
        }
    }
    Ok(())
}
