//! Rule R: shares that run on from member to member.

ghost use Rattle.sharing.specs.Rules.{parts_r};
ghost use Rattle.sharing.specs.LawR.{law_r};

use crate::division::Division;
use crate::rule::SharingRule;
use faults::Fault;

/// With C the running sum of the weights and W the sum of all, a part is amount × C / W rounded down, less the same
/// for the member before.
#[derive(Clone, Copy)]
pub struct RuleR;

impl SharingRule for RuleR {
    const LETTER: u8 = b'R';

    ghost LETTER = { 82 };

    ghost parts = { parts_r };

    ghost fair = { law_r };

    fn share(&self, amount: i64, weights: &[u64], out: &mut [i64]) -> Result<(), Fault> {
        let division = Division::admitted(amount, weights, out.len())?;
        let mut running = 0;
        let mut before = 0;
        // by place: what a `zip` with `out.iter_mut()` writes is not known to the proof
        for (k, w) in weights.iter().enumerate() {
            running += *w;
            let reached = division.exact(running).whole;
            out[k] = reached - before;
            before = reached;
        }
        Ok(())
    }
}
