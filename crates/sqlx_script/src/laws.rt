//! Laws of the script language. Each function does nothing: its contract is the law.
ghost use Rattle.std.specs.Prelude.{◌≡◌, ℕ, List, IsTrue};
ghost use Rattle.std.specs.List.{list_all};
ghost use Rattle.sqlx_lines.specs.Scripts.{Script, IsScript};
ghost use Rattle.sqlx_script.specs.declared.pool_line.PoolLine.{PoolLine};
ghost use Rattle.sqlx_script.specs.declared.step.Event.{Event};
ghost use Rattle.sqlx_script.specs.Grammar.{pool_grammar};
ghost use Rattle.sqlx_script.specs.Laws.{is_script_byte};

/// Each byte of a valid script is a newline or from 0x20 to 0x7E.
#[tactic(auto, using(crate::proofs::ScriptBytes::script_bytes))]
pub fn script_bytes()
    ensures { (bytes : List ℕ) (script : Script PoolLine Event) → IsScript pool_grammar bytes script → IsTrue (list_all is_script_byte bytes) }
{}
