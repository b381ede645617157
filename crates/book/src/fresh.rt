// The records of a book that is set up.
ghost use Rattle.std.specs.Prelude.{◌≡◌, map, ◌*◌, length};
ghost use Rattle.calls.specs.Setup.{setups_of, record_of};

use stock::Record;

// Writes every record as its setup in the list starts it.
pub(crate) fn fill(book: &mut [Record], list: &[u32], end: u32)
    requires { length list.now ≡ 4 * length book.old }
    ensures { book.new ≡ map (record_of end) (setups_of list.now) }
{
    for (i, r) in book.iter_mut().enumerate() {
        *r = calls::started_at(list, end, i);
    }
}
