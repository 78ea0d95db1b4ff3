// Entries handed to a book, one after the other.
ghost use Rattle.std.specs.Prelude.{◌≡◌};
ghost use Rattle.book.specs.Takings.{Handed, memory_after_all};

use crate::books::Book;
use crate::entries::Entry;

/// Hands the entries to the book in their order, and tells how many it took. The figures of a book that was new are then
/// evidence of the entries taken, and memory that was lent to a book has them stored in it.
pub fn take_all<B: Book>(book: &mut B, entries: &[Entry]) -> usize
    ensures handed { Handed (B.meaning book.old) (B.meaning book.new) entries.now result }
    ensures memory { B.memory book.new ≡ memory_after_all B.with_stored (B.meaning book.old) entries.now (B.memory book.old) }
{
    // A loop, since taking has an effect, which a filter that is counted would hide.
    let mut count = 0;
    for e in entries {
        if book.take(*e).is_ok() {
            count += 1;
        }
    }
    count
}

/// Hands the same entries to two books of any make, and tells how many each took. Where they meant the same before, they mean the
/// same afterwards.
pub fn take_both<A: Book, B: Book>(one: &mut A, other: &mut B, entries: &[Entry]) -> (usize, usize)
    ensures first { Handed (A.Book.meaning one.old) (A.Book.meaning one.new) entries.now result.0 }
    ensures second { Handed (B.Book.meaning other.old) (B.Book.meaning other.new) entries.now result.1 }
    ensures first_memory { A.Book.memory one.new ≡ memory_after_all A.Book.with_stored (A.Book.meaning one.old) entries.now (A.Book.memory one.old) }
    ensures second_memory { B.Book.memory other.new ≡ memory_after_all B.Book.with_stored (B.Book.meaning other.old) entries.now (B.Book.memory other.old) }
    ensures agree { A.Book.meaning one.old ≡ B.Book.meaning other.old → A.Book.meaning one.new ≡ B.Book.meaning other.new }
{
    (take_all(one, entries), take_all(other, entries))
}
