//! The laws of the monitor's lines. Each function states one and does nothing.

ghost use Rattle.std.specs.Prelude.{◌≡◌, ◌≤◌, ◌++◌, ◌↔◌, ℕ, List, length};
ghost use Rattle.mdl_text.specs.declared.command.Command.{Command};
ghost use Rattle.mdl_text.specs.CommandLine.{IsCommand, most_line};
ghost use Rattle.mdl_text.specs.CommandInput.{IsCut, text_of, kept};

/// No line is two commands.
pub fn a_line_is_one_command()
    ensures { (line : List ℕ) (one other : Command) → IsCommand line one → IsCommand line other → one ≡ other }
{}

/// No command's line is longer than the monitor takes.
pub fn a_long_line_is_no_command()
    ensures { (line : List ℕ) (command : Command) → IsCommand line command → length line ≤ most_line }
{}

/// An input is cut into lines in one way.
pub fn an_input_is_cut_in_one_way()
    ensures { (input : List ℕ) (lines others : List (List ℕ)) (last end : List ℕ) →
        IsCut input lines last → IsCut input others end → (lines ≡ others) × (last ≡ end) }
{}

/// What is kept of a line asks for what the line asks for, in whatever pieces the line comes.
pub fn a_line_is_kept_as_far_as_it_matters()
    ensures asks { (line : List ℕ) (command : Command) → IsCommand (text_of (kept line)) command ↔ IsCommand (text_of line) command }
    ensures pieces { (line more : List ℕ) → kept (kept line ++ more) ≡ kept (line ++ more) }
{}
