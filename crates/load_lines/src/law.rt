//! The text of a large run is the script of its lines.
ghost use Rattle.std.specs.Prelude.{◌<◌, ◌^◌, ℕ};
ghost use Rattle.script_language.specs.Scripts.{IsScriptOf};
ghost use Rattle.load_script.specs.Texts.{load_text};
ghost use Rattle.load_lines.specs.Lines.{load_lines};

/// The text of a large run is a script, and these are its lines.
pub fn law_of_loads()
    ensures { (count seed : ℕ) → count < 2 ^ 64
        → IsScriptOf (load_lines count seed) (load_text count seed) }
{}
