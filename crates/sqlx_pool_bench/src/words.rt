//! The words of the command line: `W N M R`.

ghost use Rattle.std.specs.Prelude.{◌≡◌, ◌^◌, ◌<◌, ◌≤◌, IfSome};

/// So many workers with so many loans each on a pool of this maximum, in so many rounds.
#[derive(Clone, Copy)]
pub struct Words {
    pub workers: u32,
    pub loans: u32,
    pub maximum: u32,
    pub rounds: u32,
}

// A word as a number from 1 on.
fn number(words: &[String], at: usize) -> Option<u32>
    ensures { IfSome result (λ n. 1 ≤ n) }
{
    let Ok(number) = words.get(at)?.parse::<u32>() else {
        return None;
    };
    if number == 0 { None } else { Some(number) }
}

/// Four numbers: 1 to 1,000 workers and connections, and at least one loan and one round.
pub fn read(words: &[String]) -> Option<Words>
    ensures { IfSome result (λ read. (read.workers < 2 ^ 16) × (1 ≤ read.maximum)) }
{
    let workers = number(words, 0)?;
    let loans = number(words, 1)?;
    let maximum = number(words, 2)?;
    let rounds = number(words, 3)?;
    if words.len() != 4 || workers > 1000 || maximum > 1000 {
        return None;
    }
    Some(Words {
        workers,
        loans,
        maximum,
        rounds,
    })
}
