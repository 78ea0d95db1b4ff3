// How much memory a day takes.
use answers::writing::ROOM;
use board::boards::Board;
use std::io::StdinLock;
use stream::serving::PIECE;
use stream::sessions::Session;

// In bytes: the board; the session, in which lie the house, the line that has not ended and the answers not written yet; a piece of
// the input; an answer with its newline; and standard input with the buffer in it.
pub(crate) const HELD: usize = size_of::<Board>()
    + size_of::<Session>()
    + size_of::<[u8; PIECE]>()
    + size_of::<[u8; ROOM + 1]>()
    + size_of::<StdinLock<'static>>();
