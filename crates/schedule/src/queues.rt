ghost use Rattle.std.specs.Prelude.{◌<◌, length};
ghost use Rattle.queue.specs.Held.{count, cells_of};
ghost use Rattle.queue.specs.Put.{Put};

use queue::{Entry, Queue};

// Puts an entry into a queue that has a free cell.
pub(crate) fn put<E: Entry>(queue: &mut Queue<'_, E>, entry: E)
    requires { count queue.old < length (cells_of queue.old) }
    ensures { Put entry queue.old queue.new }
{
    queue.put(entry).unwrap();
}
