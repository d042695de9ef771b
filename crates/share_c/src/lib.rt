// share_c: the share as C and Rust can call it, to compare it with other programs and to measure it.
#![tactic(auto)]

ghost use Rattle.share_c.specs.Promises.{Told};

use rules::refusal_number;
use share::share;

// 0 where the total is shared, with what is unplaced beside it, and else the refusal's number, with nothing written.
#[unsafe(no_mangle)]
pub extern "C" fn share_amounts(
    total: u64,
    weights: &[u64],
    amounts: &mut [i64],
    unplaced: &mut u64,
) -> u32
    ensures { Told total weights.now amounts.old unplaced.old result amounts.new unplaced.new }
{
    match share(total, weights, amounts) {
        Ok(rest) => {
            *unplaced = rest;
            0
        }
        Err(refusal) => refusal_number(refusal),
    }
}
