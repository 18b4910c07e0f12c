// Numbers by chance. Each is made of what it is drawn for: none hangs on the draws before it.
ghost use Rattle.std.specs.Prelude.{◌≤◌};

use sampling::access::modulo;
use sampling::random::scattered;

// Draw `what` for file n: a number below the limit, or 0.
pub fn pick(n: usize, what: usize, limit: usize) -> usize
    ensures { result ≤ limit }
{
    modulo(scattered(n % 65536 * 64 + what % 64), limit)
}
