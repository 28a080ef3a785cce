//! Sharing an amount of kuruş over members by their weights.
#![tactic(auto)]

mod division;
mod fair;
mod rule;
mod rule_l;
mod rule_r;

pub use fair::{examples_stand, share_fairly};
pub use rule::SharingRule;
pub use rule_l::RuleL;
pub use rule_r::RuleR;

#[cfg(test)]
mod tests {
    use super::*;
    use faults::Fault;

    // The number of a refusal.
    fn refusal(answer: Result<(), Fault>) -> Option<u8> {
        answer.err().map(|fault| fault.number())
    }

    #[test]
    fn shares_the_worked_sums(rt: HostRuntime) {
        let mut three = [9; 3];
        assert_eq!(rt; refusal(RuleR.share(-7, &[1, 1, 1], &mut three)), None);
        assert_eq!(rt; three, [-3, -2, -2]);
        assert_eq!(rt; refusal(RuleL.share(-7, &[1, 1, 1], &mut three)), None);
        assert_eq!(rt; three, [-2, -2, -3]);
        let mut two = [9; 2];
        assert_eq!(rt; refusal(RuleR.share(180, &[30, 50], &mut two)), None);
        assert_eq!(rt; two, [67, 113]);
        assert_eq!(rt; refusal(RuleL.share(180, &[30, 50], &mut two)), None);
        assert_eq!(rt; two, [68, 112]);
    }

    #[test]
    fn refuses(rt: HostRuntime) {
        let mut out = [9; 2];
        assert_eq!(rt; refusal(RuleR.share(5, &[1, 1, 1], &mut out)), Some(12));
        assert_eq!(rt; refusal(RuleL.share(5, &[u64::MAX, 1], &mut out)), Some(13));
        assert_eq!(rt; refusal(RuleR.share(i64::MIN, &[1, 0], &mut out)), Some(13));
        assert_eq!(rt; out, [9, 9]);
        assert_eq!(rt; refusal(RuleL.share(i64::MIN, &[0, 0], &mut out)), None);
        assert_eq!(rt; out, [0, 0]);
    }
}
