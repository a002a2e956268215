// Messages in a lent area, one after another, each with its length in the byte before it.
ghost use Rattle.std.specs.Prelude.{◌≡◌, ◌+◌, ◌<◌, ◌≤◌, Decides, List, length};
ghost use Rattle.medium.specs.Store.{Admits, Cleared, Listed, Put, counted, laid};
ghost use Rattle.message.specs.Message.{Msg};

use message::is_message;

// No area counts for more bytes.
const MOST_SPACE: usize = 16384;

// How many bytes of an area of this length count.
pub fn capacity(len: usize) -> usize
    ensures { result ≡ counted len }
{
    len.min(MOST_SPACE)
}

// Whether a message of so many bytes, and its length, fit behind those used.
fn has_room(space: usize, used: usize, len: usize) -> bool
    requires { used ≤ space }
    ensures { Decides result (used + len + 1 ≤ space) }
{
    len < space - used
}

// Whether the bytes are a message that fits behind those used.
pub fn admits(space: usize, used: usize, bytes: &[u8]) -> bool
    requires { used ≤ space }
    ensures { Decides result (Admits space used bytes.now) }
{
    is_message(bytes) && has_room(space, used, bytes.len())
}

// Puts a message behind those used, after its length.
pub fn put(area: &mut [u8], used: usize, bytes: &[u8])
    requires room { used + length bytes.now + 1 ≤ length area.old }
    requires short { length bytes.now < 256 }
    ensures { Put used bytes.now area.old area.new }
{
    area[used] = bytes.len() as u8;
    area[used + 1..used + 1 + bytes.len()].copy_from_slice(bytes);
}

// Sets all bytes of a part to 0.
pub fn clear(area: &mut [u8], from: usize, to: usize)
    requires order { from ≤ to }
    requires within { to ≤ length area.old }
    ensures { Cleared from to area.old area.new }
{
    area[from..to].fill(0);
}

// Whether the bytes are among the messages that are stored.
pub fn is_listed(stored: &[u8], bytes: &[u8]) -> bool
    ensures { (heard : List Msg) → laid heard ≡ stored.now → Decides result (Listed heard bytes.now) }
{
    let mut rest = stored;
    while let [len, others @ ..] = rest {
        let (message, behind) = others.split_at(others.len().min(usize::from(*len)));
        if message == bytes {
            return true;
        }
        rest = behind;
    }
    false
}
