// Numbers by chance. Each is made of what it is drawn for: none hangs on the draws before it.
ghost use Rattle.std.specs.Prelude.{◌≤◌};

use sampling::access::modulo;
use sampling::random::scattered;

// Draw `what` for text k: a number below the limit, or 0.
pub fn pick(k: usize, what: usize, limit: usize) -> usize
    ensures { result ≤ limit }
{
    modulo(scattered(scattered(k) ^ what), limit)
}
