//! Plays the made script, and writes its summary.
ghost use Rattle.std.specs.Prelude.{◌≡◌, ◌≤◌, ◌^◌, ◌<◌, IfOk, IfErr, OnOk};
ghost use Rattle.sqlx_lines.specs.Scripts.{Script, IsScript, script_of};
ghost use Rattle.sqlx_player.specs.Output.{output_of};
ghost use Rattle.sqlx_script.specs.declared.pool_line.PoolLine.{PoolLine};
ghost use Rattle.sqlx_script.specs.declared.step.Event.{Event};
ghost use Rattle.sqlx_script.specs.Grammar.{pool_grammar};
ghost use Rattle.sqlx_script_rules.specs.Output.{pool_rules};
ghost use Rattle.sqlx_script_made.specs.Made.{made_text};
ghost use Rattle.sqlx_player.specs.Memory.{sure_written};
ghost use Rattle.sqlx_player.specs.Causes.{TextCause, WrotePart};
ghost use Rattle.sqlx_play_program.specs.MadeRuns.{Summarizes, summary_due};
ghost use Rattle.sqlx_player.specs.declared.error.PlayError.TheVariants.{OutOfMemory as out_of_memory};

use sqlx_play::{ByStore, PlayError, Sink, SureSink, SureSource, play_by, write_all};
use sqlx_script_made::{made_script, made_summary};
use std::alloc::Global;

// Plays the made script in memory, straight to the store.
fn played_made(alloc: Global, lines: u32, seed: u32) -> Result<SureSink, PlayError>
    requires some { 1 ≤ lines }
    requires few { lines ≤ 10000 }
    ensures ok { IfOk result (λ sink. (script : Script PoolLine Event) × IsScript pool_grammar (made_text lines seed) script × (sure_written sink ≡ output_of pool_rules script)) }
    ensures err { IfErr result (λ error. error ≡ out_of_memory) }
{
    let text = made_script(alloc, lines, seed)?;
    let mut source = SureSource::new(text.into_bytes());
    let mut sink = SureSink::new(alloc);
    let played = play_by::<ByStore, _, _>(alloc, &mut source, &mut sink)?;
    drop(played);
    Ok(sink)
}

/// Plays the made script of so many lines for this seed in memory, and writes its summary to the sink.
pub fn make<K: Sink>(alloc: Global, lines: u32, seed: u32, sink: &mut K) -> Result<(), PlayError>
    requires some { 1 ≤ lines }
    requires few { lines ≤ 10000 }
    ensures ok { OnOk result (Summarizes lines seed (K.written sink.old) (K.written sink.new)) }
    ensures rises { K.faults sink.old ≤ K.faults sink.new }
    ensures cause { IfErr result (TextCause (λ _. ⊥) (WrotePart (K.written sink.old) (K.written sink.new) (summary_due lines (script_of pool_grammar (made_text lines seed))))
        (K.faults sink.old) (K.faults sink.new)) }
{
    let played = played_made(alloc, lines, seed)?;
    let summary = made_summary(alloc, lines, played.written())?;
    write_all(sink, &summary)
}
