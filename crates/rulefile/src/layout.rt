// The layout of a rule file: what its bytes say.
ghost use Rattle.std.specs.Prelude.{◌≡◌, ◌/◌, ◌≤◌, length, replicate};
ghost use Rattle.rule.specs.Drawing.{no_pair, padded};
ghost use Rattle.rulefile.specs.Layout.{pair_in, up_to};

use rule::Pair;

// Fills eight empty pairs with those that stand in some bytes. They are lent: an array that is handed back is on the stack twice.
#[inline(never)]
#[tactic(auto, unfolding(crate::specs::Layout::up_to, rule::specs::Drawing::padded))]
pub(crate) fn fill_pairs(pairs: &mut [Pair], bytes: &[u8])
    requires { (pairs.old ≡ replicate 8 no_pair) × (length bytes.now ≤ 128) }
    ensures { pairs.new ≡ padded 8 no_pair (up_to (pair_in bytes.now) (length bytes.now / 16)) }
{
    for (i, chunk) in bytes.chunks_exact(16).enumerate() {
        let (r, p) = chunk.split_at(8);
        pairs[i] = Pair {
            r: octets::number(r),
            p: octets::number(p),
        };
    }
}
