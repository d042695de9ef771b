// The verdict on a factor sheet in two lent words: what is wrong, and the member, from 1.
ghost use Rattle.std.specs.Prelude.{◌≡◌, ◌≤◌, length};
ghost use Rattle.dullavane.specs.Verdicts.{wrong_number, member_number, with_verdict, told_number, verdict_after};

use rules::{Refusal, Side, Verdict, refusal_number};

pub(crate) const VERDICT_WORDS: usize = 2;

// What is wrong: 0 nothing, 1 a member, 2 the positive side, 3 the negative side.
fn wrong_number(verdict: Verdict) -> u64
    ensures { result ≡ wrong_number verdict }
{
    match verdict {
        Verdict::Possible => 0,
        Verdict::WrongMember(_) => 1,
        Verdict::WrongSide(side) => match side {
            Side::Positive => 2,
            Side::Negative => 3,
        },
    }
}

// The member that is wrong; 0 where it is none.
fn member_number(verdict: Verdict) -> u64
    ensures { result ≡ member_number verdict }
{
    match verdict {
        Verdict::Possible => 0,
        Verdict::WrongMember(member) => member as u64,
        Verdict::WrongSide(_) => 0,
    }
}

// Words past the two stay.
fn put_verdict(verdict: Verdict, words: &mut [u64])
    requires { 2 ≤ length words.old }
    ensures { words.new ≡ with_verdict verdict words.old }
{
    let wrong = wrong_number(verdict);
    let member = member_number(verdict);
    words[0] = wrong;
    words[1] = member;
}

// The number of a verdict, with what is wrong in the words.
pub(crate) fn tell_verdict(told: Result<Verdict, Refusal>, words: &mut [u64]) -> u32
    requires { 2 ≤ length words.old }
    ensures { (result ≡ told_number told) × (words.new ≡ verdict_after told words.old) }
{
    match told {
        Ok(verdict) => {
            put_verdict(verdict, words);
            0
        }
        Err(refusal) => refusal_number(refusal),
    }
}
