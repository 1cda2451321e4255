//! The texts of the feeds.

ghost use Rattle.std.specs.Prelude.{◌≡◌, ◌≤◌, map, IfOk};
ghost use Rattle.kin_gen.specs.Feeds.{gen_feeds};

use crate::draws::generator;
use crate::records::push_line;
use kin_ids::Memory;
use std::alloc::Global;

/// The texts of the three feeds of n records, 1 to 500000: record r, from 0 on, goes to feed r modulo 3. `feed_laws`
/// says what holds of them. Its cost is linear in n.
pub fn feeds_of(alloc: Global, seed: u64, n: u64) -> Result<Vec<Vec<u8>>, Memory>
    requires { n ≤ 500000 }
    ensures { IfOk result (λ feeds. map (λ f. f.items) feeds.items ≡ gen_feeds seed n) }
{
    let mut draws = generator(seed);
    let mut texts = vec![in alloc; Vec::new(alloc), Vec::new(alloc), Vec::new(alloc)]?;
    for r in 0..n {
        push_line(&mut texts[(r % 3) as usize], &mut draws, n / 4 + 2)?;
    }
    Ok(texts)
}
