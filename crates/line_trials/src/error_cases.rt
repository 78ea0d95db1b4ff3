// A writer and a reader that fail in mid-stream: what was written is a front of the answers, and nothing is answered after it.
use board::boards::Board;
use book::books::{Book, MOST};
use book::lawful::LawfulDay;
use std::alloc::Global;
use std::io;
use std::io::{ErrorKind, Read, Write};
use std::test::Fail;
use stream::serving::serve;
use stream::sessions::Session;

// Its answers are the lines `done`, `listed 0`, `done`, `done`.
const LINES: &[u8] =
    b"day 61200 117900 131400 143100 126000 10 10 10 10\nlist 1 0 - 145200 - 0 0\nbell open\ntrade 0 142199 145150 10\n";

// Takes so many bytes, three at a time, and then none; a signal interrupts each write and each flush at first.
#[derive(Drop)]
struct Narrow {
    got: Vec<u8>,
    room: usize,
    interrupted: bool,
    // What a write ends with that finds no room; if missing it takes 0 bytes.
    at_end: Option<ErrorKind>,
    // What a flush ends with.
    at_flush: Option<ErrorKind>,
}

impl Write for Narrow {
    fn write(&mut self, buf: &[u8]) -> io::Result<usize> {
        self.interrupted = !self.interrupted;
        if self.interrupted {
            return Err(ErrorKind::Interrupted.into());
        }
        if self.got.len() >= self.room {
            return match self.at_end {
                Some(kind) => Err(kind.into()),
                None => Ok(0),
            };
        }
        let n = buf.len().min(3).min(self.room - self.got.len());
        self.got.extend_from_slice(&buf[..n])?;
        Ok(n)
    }

    fn flush(&mut self) -> io::Result<()> {
        self.interrupted = !self.interrupted;
        if self.interrupted {
            return Err(ErrorKind::Interrupted.into());
        }
        match self.at_flush {
            Some(kind) => Err(kind.into()),
            None => Ok(()),
        }
    }
}

fn with_room(alloc: Global, room: usize, at_end: Option<ErrorKind>) -> Narrow {
    Narrow {
        got: Vec::new(alloc),
        room,
        interrupted: false,
        at_end,
        at_flush: None,
    }
}

// Gives its bytes one at a time, and then fails.
#[derive(Drop)]
struct Broken {
    bytes: &'static [u8],
}

impl Read for Broken {
    fn read(&mut self, buf: &mut [u8]) -> io::Result<usize> {
        if self.bytes.is_empty() || buf.is_empty() {
            return Err(ErrorKind::ConnectionReset.into());
        }
        buf[0] = self.bytes[0];
        self.bytes = &self.bytes[1..];
        Ok(1)
    }
}

fn kind(outcome: io::Result<()>) -> Option<ErrorKind> {
    outcome.err().map(|e| e.kind())
}

#[test]
fn a_narrow_writer_gets_all(rt: HostRuntime) {
    let mut board = Board::new(LawfulDay::least(), MOST);
    let mut output = with_room(rt.alloc(), 64, None);
    let mut session = Session::new();
    let taken = session.take_piece(&mut board, &mut output, LINES);
    assert!(rt; taken.is_ok() && !session.has_failed());
    assert!(rt; output.got.as_slice() == b"done\nlisted 0\ndone\ndone\n".as_slice());
}

// After a write that fails the session takes neither the same piece again nor the end of the input, though the writer has room by
// then: the trade was entered once.
#[test]
fn a_failed_write_ends_a_session(rt: HostRuntime) {
    let ends = [
        (Some(ErrorKind::BrokenPipe), ErrorKind::BrokenPipe),
        (None, ErrorKind::WriteZero),
    ];
    for (at_end, error) in ends {
        let mut board = Board::new(LawfulDay::least(), MOST);
        let mut output = with_room(rt.alloc(), 11, at_end);
        let mut session = Session::new();
        let taken = session.take_piece(&mut board, &mut output, LINES);
        assert_eq!(rt; kind(taken), Some(error));
        output.room = 64;
        let again = session.take_piece(&mut board, &mut output, LINES);
        assert_eq!(rt; kind(again), Some(ErrorKind::Other));
        let finished = session.finish(&mut board, &mut output);
        assert_eq!(rt; kind(finished), Some(ErrorKind::Other));
        assert_eq!(rt; kind(session.flush(&mut output)), Some(ErrorKind::Other));
        assert!(rt; session.has_failed());
        assert!(rt; output.got.as_slice() == b"done\nlisted".as_slice());
        assert_eq!(rt; board.count(), 1);
    }
}

#[test]
fn a_failed_flush_ends_a_session(rt: HostRuntime) {
    let mut board = Board::new(LawfulDay::least(), MOST);
    let mut output = with_room(rt.alloc(), 64, None);
    output.at_flush = Some(ErrorKind::TimedOut);
    let mut session = Session::new();
    let taken = session.take_piece(&mut board, &mut output, LINES);
    assert_eq!(rt; kind(taken), Some(ErrorKind::TimedOut));
    output.at_flush = None;
    let again = session.take_piece(&mut board, &mut output, LINES);
    assert_eq!(rt; kind(again), Some(ErrorKind::Other));
    assert!(rt; output.got.as_slice() == b"done\nlisted 0\ndone\ndone\n".as_slice());
    assert_eq!(rt; board.count(), 1);
}

// The line that has not ended is not answered.
#[test]
fn a_failed_read_ends_serving(rt: HostRuntime) {
    let mut board = Board::new(LawfulDay::least(), MOST);
    let mut output = with_room(rt.alloc(), 64, None);
    let mut input = Broken {
        bytes: b"day 61200 117900 131400 143100 126000 10 10 10 10\nlist 1 0 - 145200 - 0 0\nbell open",
    };
    let served = serve(&mut board, &mut input, &mut output);
    assert_eq!(rt; kind(served), Some(ErrorKind::ConnectionReset));
    assert!(rt; output.got.as_slice() == b"done\nlisted 0\n".as_slice());
}
