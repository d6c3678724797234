//! Laws of the made script. Each function does nothing: its contract is the law.
ghost use Rattle.std.specs.Prelude.{◌<◌, ◌≤◌, ◌^◌, ℕ};
ghost use Rattle.sqlx_lines.specs.Scripts.{Script, IsScript};
ghost use Rattle.sqlx_script.specs.declared.pool_line.PoolLine.{PoolLine};
ghost use Rattle.sqlx_script.specs.declared.step.Event.{Event};
ghost use Rattle.sqlx_script.specs.Grammar.{pool_grammar};
ghost use Rattle.sqlx_script_made.specs.Made.{made_text};

/// The made script is a script, each line of which is good.
pub fn is_script()
    ensures { (count seed : ℕ) → 1 ≤ count → count ≤ 10000 → (script : Script PoolLine Event) × IsScript pool_grammar (made_text count seed) script }
{}
