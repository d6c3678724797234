//! Words whose letters say what the outside answers.
ghost use Rattle.std.specs.Prelude.{◌≡◌, IfSome};
ghost use Rattle.sqlx_script.specs.Letters as spec;

use crate::answers::{
    AfterConnectAnswer, ConnectAnswer, GiveAnswers, HookAnswer, PollAnswers, StatementAnswer,
};

/// The four switches of the first line.
#[derive(Clone, Copy)]
pub struct Switches {
    pub test_before_acquire: bool,
    pub after_connect: bool,
    pub before_acquire: bool,
    pub after_release: bool,
}

#[tactic(auto, unfolding(crate::specs::Letters::plus_or_minus))]
fn plus_or_minus(letter: u8) -> Option<bool>
    ensures { result ≡ spec.plus_or_minus letter }
{
    match letter {
        b'+' => Some(true),
        b'-' => Some(false),
        _ => None,
    }
}

#[tactic(auto, unfolding(crate::specs::Letters::hook_letter))]
fn hook(letter: u8) -> Option<HookAnswer>
    ensures { result ≡ spec.hook_letter letter }
{
    match letter {
        b'+' => Some(HookAnswer::Accepts),
        b'-' => Some(HookAnswer::Refuses),
        b'!' => Some(HookAnswer::Fails),
        b'^' => Some(HookAnswer::LeavesOpen),
        _ => None,
    }
}

#[tactic(auto, unfolding(crate::specs::Letters::after_connect_letter))]
fn after_connect(letter: u8) -> Option<AfterConnectAnswer>
    ensures { result ≡ spec.after_connect_letter letter }
{
    match letter {
        b'+' => Some(AfterConnectAnswer::SetUp),
        b'!' => Some(AfterConnectAnswer::SetUpFails),
        b'^' => Some(AfterConnectAnswer::SetUpLeavesOpen),
        _ => None,
    }
}

#[tactic(auto, unfolding(crate::specs::Letters::connect_letter))]
fn connect(letter: u8) -> Option<ConnectAnswer>
    ensures { result ≡ spec.connect_letter letter }
{
    match letter {
        b'+' => Some(ConnectAnswer::Connected),
        b'~' => Some(ConnectAnswer::Transient),
        b'i' => Some(ConnectAnswer::ConnectIo),
        b'd' => Some(ConnectAnswer::ConnectDatabase),
        _ => None,
    }
}

#[tactic(auto, unfolding(crate::specs::Letters::statement_letter))]
fn statement_letter(letter: u8) -> Option<StatementAnswer>
    ensures { result ≡ spec.statement_letter letter }
{
    match letter {
        b'+' => Some(StatementAnswer::Runs),
        b'i' => Some(StatementAnswer::StatementIo),
        b'd' => Some(StatementAnswer::StatementRefused),
        _ => None,
    }
}

/// A word of one sign, `+` or `-`.
#[tactic(auto, unfolding(crate::specs::Letters::sign))]
pub fn sign(word: &[u8]) -> Option<bool>
    ensures { result ≡ spec.sign word.now }
{
    match word {
        [letter] => plus_or_minus(*letter),
        _ => None,
    }
}

/// The answer to a statement.
#[tactic(auto, unfolding(crate::specs::Letters::statement))]
pub fn statement(word: &[u8]) -> Option<StatementAnswer>
    ensures { result ≡ spec.statement word.now }
{
    match word {
        [letter] => statement_letter(*letter),
        _ => None,
    }
}

// Four times `+` as one number.
const FOUR_PLUS: u32 = 0x2b2b_2b2b;

/// The four letters of a `poll`, which answer one test.
#[inline(always)]
#[tactic(auto, unfolding(crate::specs::Letters::poll_answers))]
pub fn poll_answers(word: &[u8]) -> Option<PollAnswers>
    ensures is { result ≡ spec.poll_answers word.now }
    ensures one { IfSome result (λ answers. spec.answering answers 1 ≡ answers) }
{
    let [ping, before, connects, after] = word else {
        return None;
    };
    if u32::from_le_bytes([*ping, *before, *connects, *after]) == FOUR_PLUS {
        return Some(PollAnswers {
            ping: true,
            before_acquire: HookAnswer::Accepts,
            connect: ConnectAnswer::Connected,
            after_connect: AfterConnectAnswer::SetUp,
            tests: 1,
        });
    }
    Some(PollAnswers {
        ping: plus_or_minus(*ping)?,
        before_acquire: hook(*before)?,
        connect: connect(*connects)?,
        after_connect: after_connect(*after)?,
        tests: 1,
    })
}

/// The two letters of a `give`.
#[inline(always)]
#[tactic(auto, unfolding(crate::specs::Letters::give_answers))]
pub fn give_answers(word: &[u8]) -> Option<GiveAnswers>
    ensures { result ≡ spec.give_answers word.now }
{
    let [release, ping] = word else {
        return None;
    };
    Some(GiveAnswers {
        after_release: hook(*release)?,
        ping: plus_or_minus(*ping)?,
    })
}

/// The four switches of the first line.
#[tactic(auto, unfolding(crate::specs::Letters::switches))]
pub fn four_switches(word: &[u8]) -> Option<Switches>
    ensures { result ≡ spec.switches word.now }
{
    let [ping, after, before, release] = word else {
        return None;
    };
    Some(Switches {
        test_before_acquire: plus_or_minus(*ping)?,
        after_connect: plus_or_minus(*after)?,
        before_acquire: plus_or_minus(*before)?,
        after_release: plus_or_minus(*release)?,
    })
}
