ghost use Rattle.std.specs.Prelude.{◌≡◌, IfOk, IfSome, take, vec_items};

use std::alloc::Global;
use std::io;
use std::io::Read;

// One byte more than a feed may have is enough to tell that it is too long.
const MOST_READ: u64 = 65_536;

// A feed's bytes, as far as they are needed. What is known of the bytes that the input has left is known of these.
pub fn take_feed<R: Read + Drop>(heap: Global, input: R) -> io::Result<Vec<u8>>
    ensures { IfOk result (λ bytes. IfSome (R.remaining input) (λ known. vec_items bytes ≡ take 65536 known)) }
{
    let mut bytes = Vec::new(heap);
    input.take(MOST_READ).read_to_end(&mut bytes)?;
    Ok(bytes)
}
