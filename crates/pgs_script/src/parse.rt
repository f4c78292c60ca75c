ghost use Rattle.std.specs.Prelude.{◌≡◌, ℕ, ◌≤◌, ◌+◌, ◌<◌, ◌^◌, List, ◌≢◌, true, false, length, Result, Ok, Err, Option, Some, IfOk, OnOk};
ghost use Rattle.pgs_texts.specs.Text as text_of;
ghost use Rattle.pgs_texts.specs.Verdict as verdict_of;
ghost use Rattle.pgs_texts.specs.Verdict.{Judges};
ghost use Rattle.pgs_texts.specs.declared.script_error.ScriptError.TheVariants as errors;
ghost use Rattle.pgs_words.specs.Forms.{parts_of};
ghost use Rattle.pgs_lines.specs.Lines.{line_said};
ghost use Rattle.pgs_order.specs.declared.step_script.StepScript.{StepScript};
ghost use Rattle.pgs_order.specs.Ordered.{IsOrdered};
ghost use Rattle.pgs_texts.specs.declared.script_error.ScriptError.{ScriptError};
ghost use Rattle.pgs_script.specs.Script.{script_grammar, AreSpelled};

use pgs_lines::{Line, line_in};
use pgs_order::{StepScript, after, allows, nothing_said, passed, passes};
use pgs_texts::ScriptError;
use pgs_words::{ReadError, cut};
use std::alloc::Global;

// What was said with a line more, or why it isn't allowed.
#[tactic(auto, using(crate::proofs::Spelled::spelled_after, pgs_order::proofs::Keeps::ordered_after), unfolding(pgs_texts::specs::Verdict::judged))]
fn judge(number: u32, script: StepScript, line: Line) -> Result<StepScript, ScriptError>
    ensures verdict { Judges result (verdict_of.judged script_grammar number script (Some line)) }
    ensures spelled { (line_said line).fits ≡ true → AreSpelled script.steps → IfOk result (λ s. AreSpelled s.steps) }
    ensures ordered { (line_said line).fits ≡ true → script.over ≡ false → IsOrdered script → IfOk result (λ s. IsOrdered s) }
{
    if allows(&script, &line) {
        if passes(&script, &line) {
            return Err(ScriptError::Limit { line: number });
        }
        let next = after(script, line)?;
        return Ok(next);
    }
    Err(ScriptError::BadLine { line: number })
}

// The same of a line's text.
#[tactic(auto, using(crate::proofs::Spelled::fits_of_read), unfolding(pgs_texts::specs::Verdict::accepted, pgs_texts::specs::Verdict::judged))]
fn accept(
    alloc: Global,
    number: u32,
    script: StepScript,
    text: &[u8],
) -> Result<StepScript, ScriptError>
    ensures verdict { Judges result (verdict_of.accepted script_grammar number script text.now) }
    ensures spelled { AreSpelled script.steps → IfOk result (λ s. AreSpelled s.steps) }
    ensures ordered { IsOrdered script → IfOk result (λ s. IsOrdered s) }
{
    if script.over {
        return Err(ScriptError::BadLine { line: number });
    }
    if passed(text) {
        return Ok(script);
    }
    match line_in(alloc, text) {
        Ok(line) => judge(number, script, line),
        Err(ReadError::Outside) => Err(ScriptError::BadLine { line: number }),
        Err(ReadError::Memory) => Err(ScriptError::Memory),
    }
}

// The same of what stands behind the last line's end.
#[tactic(auto, unfolding(pgs_texts::specs::Verdict::finished))]
fn finish(number: u32, script: StepScript, text: &[u8]) -> Result<StepScript, ScriptError>
    ensures verdict { Judges result (verdict_of.finished script_grammar number script text.now) }
    ensures spelled { AreSpelled script.steps → IfOk result (λ s. AreSpelled s.steps) }
    ensures ordered { IsOrdered script → IfOk result (λ s. IsOrdered s) }
    ensures over { IfOk result (λ s. s.over ≡ true) }
{
    if script.over && text.is_empty() {
        return Ok(script);
    }
    Err(ScriptError::BadLine { line: number })
}

// The script of a text, or its first refused line, by one line after another.
#[tactic(auto, using(pgs_order::proofs::Keeps::ordered_start))]
fn read_lines(alloc: Global, text: &[u8]) -> Result<StepScript, ScriptError>
    requires { length text.now ≤ 16777216 }
    ensures verdict { Judges result (verdict_of.verdict script_grammar 1 (script_grammar).start (parts_of 10 text.now)) }
    ensures spelled { IfOk result (λ s. AreSpelled s.steps) }
    ensures ordered { IfOk result (λ s. IsOrdered s) }
    ensures over { IfOk result (λ s. s.over ≡ true) }
{
    let mut script = nothing_said(alloc);
    let mut number: u32 = 1;
    let mut rest = text;
    while let Some((line, more)) = cut(rest, b'\n') {
        match accept(alloc, number, script, line) {
            Ok(next) => script = next,
            Err(error) => return Err(error),
        }
        number += 1;
        rest = more;
    }
    finish(number, script, rest)
}

/// The script that a text is. A text of at most 16,777,216 bytes is read. The fields of its steps are within the
/// bounds of their words, and what it declares and names is in order.
#[tactic(auto, using(crate::proofs::Grammars::verdicts))]
pub fn parse_steps(alloc: Global, text: &[u8]) -> Result<StepScript, ScriptError>
    requires { length text.now ≤ 16777216 }
    // The answer is what the grammar says of the text,
    ensures is { text_of.IsVerdict script_grammar text.now result }
    // and what the grammar says is the answer, unless memory ran out.
    ensures only { (due : Result StepScript ScriptError) → text_of.IsVerdict script_grammar text.now due → due ≢ Err errors.Memory → Judges result due }
    ensures spelled { IfOk result (λ s. AreSpelled s.steps) }
    ensures ordered { IfOk result (λ s. IsOrdered s) }
    // It was read to its `end`.
    ensures over { IfOk result (λ s. s.over ≡ true) }
{
    read_lines(alloc, text)
}
