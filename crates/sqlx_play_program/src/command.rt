//! What the words of a command line ask for.
ghost use Rattle.std.specs.Prelude.{◌≡◌, map, string_bytes};
ghost use Rattle.sqlx_play_program.specs.Commands as spec;

use sqlx_lines::number_in;

/// What the program is to do.
#[derive(Clone, Copy)]
pub enum Command {
    /// No words: the script of the source is played.
    Play,
    /// `make N X`: the made script of N lines, from 1 to 10,000, for the seed X, below 2^31, is played, and its summary written.
    Make {
        lines: u32,
        seed: u32,
    },
    /// `crowd W N M`: W workers, from 1 to 16, make N loans each, from 1 to 1,000, of a pool of at most M connections,
    /// from 1 to 16, and the pool's log is written.
    Crowd {
        workers: u32,
        loans: u32,
        maximum: u32,
    },
    /// Any other words.
    Unknown,
}

// What `make` and these two words ask for.
fn made_by(lines: &[u8], seed: &[u8]) -> Command
    ensures is { result ≡ spec.made_by lines.now seed.now }
    ensures numbers { spec.IsInRange result }
{
    let Some(lines) = number_in(lines, 1, 10_001) else {
        return Command::Unknown;
    };
    let Some(seed) = number_in(seed, 0, 2_147_483_648) else {
        return Command::Unknown;
    };
    Command::Make {
        lines: lines as u32,
        seed: seed as u32,
    }
}

// What `crowd` and these three words ask for.
fn crowded_by(workers: &[u8], loans: &[u8], maximum: &[u8]) -> Command
    ensures is { result ≡ spec.crowded_by workers.now loans.now maximum.now }
    ensures numbers { spec.IsInRange result }
{
    let Some(workers) = number_in(workers, 1, 17) else {
        return Command::Unknown;
    };
    let Some(loans) = number_in(loans, 1, 1_001) else {
        return Command::Unknown;
    };
    let Some(maximum) = number_in(maximum, 1, 17) else {
        return Command::Unknown;
    };
    Command::Crowd {
        workers: workers as u32,
        loans: loans as u32,
        maximum: maximum as u32,
    }
}

/// What these words ask for.
pub fn command_of(words: &[String]) -> Command
    ensures is { result ≡ spec.command_of (map string_bytes words.now) }
    ensures numbers { spec.IsInRange result }
{
    match words {
        [] => Command::Play,
        [word, lines, seed] if word.as_str() == "make" => {
            made_by(lines.as_bytes(), seed.as_bytes())
        }
        [word, workers, loans, maximum] if word.as_str() == "crowd" => {
            crowded_by(workers.as_bytes(), loans.as_bytes(), maximum.as_bytes())
        }
        _ => Command::Unknown,
    }
}
