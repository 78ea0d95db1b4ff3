// Answers on their way to the writer.
ghost use Rattle.std.specs.Prelude.{◌≡◌, ◌≢◌, ℕ, ◌+◌, ◌<◌, ◌≤◌, List, [], ◌++◌, length, take, IfErr, IfOk, OnErr, OnOk};
ghost use Rattle.std.specs.IoError.{error_kind};
ghost use Rattle.std.specs.Io.KnownBytes.{Appends, Keeps};
ghost use Rattle.stream.specs.Held.{AppendsFront};

use std::io;
use std::io::{ErrorKind, Write};

const SIZE: usize = 4096;

// Hands some of the bytes to the writer, one at least. A write that a signal interrupts is tried again.
fn write_some<W: Write>(writer: &mut W, bytes: &[u8]) -> io::Result<usize>
    ensures some { IfOk result (λ n. (0 < n) × (n ≤ length bytes.now)) }
    ensures written { IfOk result (λ n. Appends (W.contents writer.old) (W.contents writer.new) (take n bytes.now)) }
    ensures kept { OnErr result (Keeps (W.contents writer.old) (W.contents writer.new)) }
    ensures again { IfErr result (λ e. error_kind e ≢ ErrorKind.Interrupted) }
{
    for _ in 0..u64::MAX {
        match writer.write(bytes) {
            Ok(0) => return Err(ErrorKind::WriteZero.into()),
            Ok(n) => return Ok(n),
            Err(e) => {
                if e.kind() != ErrorKind::Interrupted {
                    return Err(e);
                }
            }
        }
    }
    Err(ErrorKind::Other.into())
}

// Asks the writer to pass on what it has. A flush that a signal interrupts is tried again.
pub(crate) fn flush_writer<W: Write>(writer: &mut W) -> io::Result<()>
    ensures kept { Keeps (W.contents writer.old) (W.contents writer.new) }
    ensures again { IfErr result (λ e. error_kind e ≢ ErrorKind.Interrupted) }
{
    for _ in 0..u64::MAX {
        match writer.flush() {
            Ok(()) => return Ok(()),
            Err(e) => {
                if e.kind() != ErrorKind::Interrupted {
                    return Err(e);
                }
            }
        }
    }
    Err(ErrorKind::Other.into())
}

// Hands the bytes to the writer, all of them or, on an error, a front of them.
#[tactic(auto, using(crate::proofs::Fronts::front_wrote))]
fn write_bytes<W: Write>(writer: &mut W, bytes: &[u8]) -> io::Result<()>
    ensures all { OnOk result (Appends (W.contents writer.old) (W.contents writer.new) bytes.now) }
    ensures front { OnErr result ((rest : List ℕ) × (length rest ≤ length bytes.now) × AppendsFront (W.contents writer.old) (W.contents writer.new) bytes.now rest) }
    ensures again { IfErr result (λ e. error_kind e ≢ ErrorKind.Interrupted) }
{
    let mut rest = bytes;
    while !rest.is_empty() {
        let n = write_some(writer, rest)?;
        rest = &rest[n..];
    }
    Ok(())
}

// So many answers go to the writer at once: one by one they would be a system call each.
#[derive(Drop)]
pub(crate) struct Unsent {
    bytes: [u8; SIZE],
    len: usize,
    ghost few: { len ≤ 4096 },
}

impl Unsent {
    ghost use Rattle.stream.specs.Sessions.{unsent_bytes};

    pub(crate) fn new() -> Unsent
        ensures { unsent_bytes result ≡ [] }
    {
        Unsent {
            bytes: [0; SIZE],
            len: 0,
        }
    }

    // Hands everything to the writer, which on an error has a front of it.
    pub(crate) fn send<W: Write>(&mut self, writer: &mut W) -> io::Result<()>
        ensures all { OnOk result (Appends (W.contents writer.old) (W.contents writer.new) (unsent_bytes self.old)) }
        ensures empty { OnOk result (self.new.len ≡ 0) }
        ensures front { OnErr result ((rest : List ℕ) × (length rest ≤ 4096) × AppendsFront (W.contents writer.old) (W.contents writer.new) (unsent_bytes self.old) rest) }
        ensures again { IfErr result (λ e. error_kind e ≢ ErrorKind.Interrupted) }
    {
        write_bytes(writer, &self.bytes[..self.len])?;
        self.len = 0;
        Ok(())
    }

    // Makes room for so many bytes.
    fn make_room<W: Write>(&mut self, writer: &mut W, size: usize) -> io::Result<()>
        requires { size ≤ 97 }
        ensures same { OnOk result (AppendsFront (W.contents writer.old) (W.contents writer.new) (unsent_bytes self.old) (unsent_bytes self.new)) }
        ensures room { OnOk result (self.new.len + size ≤ 4096) }
        ensures front { OnErr result ((rest : List ℕ) × (length rest ≤ 4096) × AppendsFront (W.contents writer.old) (W.contents writer.new) (unsent_bytes self.old) rest) }
        ensures again { IfErr result (λ e. error_kind e ≢ ErrorKind.Interrupted) }
    {
        if SIZE - self.len < size {
            self.send(writer)?;
        }
        Ok(())
    }

    // Adds an answer.
    pub(crate) fn put<W: Write>(&mut self, writer: &mut W, answer: &[u8]) -> io::Result<()>
        requires { length answer.now ≤ 97 }
        ensures all { OnOk result (AppendsFront (W.contents writer.old) (W.contents writer.new) (unsent_bytes self.old ++ answer.now) (unsent_bytes self.new)) }
        ensures front { OnErr result ((rest : List ℕ) × (length rest ≤ 4193) × AppendsFront (W.contents writer.old) (W.contents writer.new) (unsent_bytes self.old ++ answer.now) rest) }
        ensures again { IfErr result (λ e. error_kind e ≢ ErrorKind.Interrupted) }
    {
        self.make_room(writer, answer.len())?;
        let end = self.len + answer.len();
        self.bytes[self.len..end].copy_from_slice(answer);
        self.len = end;
        Ok(())
    }
}
