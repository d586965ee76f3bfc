//! Scripts for two servers are scripts for three.
ghost use Rattle.std.specs.Prelude.{ℕ, List, map};
ghost use Rattle.script_lines.specs.declared.line.Line.{Line};
ghost use Rattle.script_language.specs.Scripts.{IsScriptOf};
ghost use Rattle.trio_lines.specs.declared.line.TrioLine.TheVariants.{Plain};
ghost use Rattle.trio_lines.specs.Scripts.{IsTrioOf};

/// Bytes that are a script for two servers are one for three, of the same lines.
pub fn law_of_shared_scripts()
    ensures { (lines : List Line) (bytes : List ℕ) → IsScriptOf lines bytes
        → IsTrioOf (map Plain lines) bytes }
{}
