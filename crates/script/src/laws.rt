// What holds of every line and every command, proved once and for all.
ghost use Rattle.script.specs.Commands.{Call};
ghost use Rattle.script.specs.Spelling.{Cuts, Fit, ReadBack};
ghost use Rattle.std.specs.Prelude.{ℕ, List};

// A line has just the words that stand in it, with blanks between them, before them and behind them.
pub fn every_line_has_its_words()
    ensures { (line : List ℕ) → Cuts line }
{}

// Every command is read back from each line in which its words stand.
pub fn every_command_is_read_back()
    ensures { (call : Call) → Fit call → ReadBack call }
{}
